//! Tests of published worlds, by spectators on threads.

ghost use Rattle.std.specs.Prelude.{◌≡◌, ◌+◌, ◌<◌, ◌≤◌, [], length, true, All, IfOk, OnOk};
ghost use Rattle.sgl_typed.specs.Tick.{worlds};
ghost use Rattle.sgl_typed.specs.WrittenOut.{is_written_out};
ghost use Rattle.world_publish.specs.Showing.{IsEntry};
ghost use Rattle.board_tests.specs.Still.{AreStill, still_at};

use crate::tests::equal::assert_equal;
use env_table::{World, WorldBuilder};
use sgl_typed::TScript;
use sgl_values::{List, Memory, Num};
use std::alloc::Global;
use std::marker::Brand;
use std::sync::Wait;
use std::test::Fail;
use std::thread;
use std::thread::Threads;
use world_publish::{
    BadEvent, Course, Publisher, Receipt, Spectator, StandCore, StandEvent, learnt_is_not_passed,
    stand, steps_are_events,
};

#[test]
fn what_is_learnt_is_seen(rt: HostRuntime) -> Result<(), Fail> {
    let mut core = StandCore::new(rt.alloc(), 2, 1)?;
    let events = [
        StandEvent::Publish,
        StandEvent::Look {
            spectator: 0,
            position: 0,
        },
        StandEvent::Learn {
            spectator: 0,
            position: 1,
        },
        StandEvent::Look {
            spectator: 0,
            position: 0,
        },
    ];
    assert_equal(&rt, &core.play(events.as_slice()), &Err(BadEvent { at: 3 }));
    assert_equal(&rt, &core.published(), &2);
    assert_equal(&rt, &core.seen(0), &1);
    steps_are_events();
    learnt_is_not_passed();
    Ok(())
}

// The world of a tick with one unit, which the idle script leaves as it is.
fn still_world(alloc: Global, tick: u16) -> Result<World, Memory>
    ensures { IfOk result (λ world. world.world ≡ still_at tick) }
{
    let mut builder = WorldBuilder::with_room(alloc, tick, 1, 1)?;
    match builder.push(5, [Num::whole(7)].as_slice()) {
        Ok(()) => Ok(builder.finish(9)),
        Err(_) => Err(Memory),
    }
}

// The position of the world that a spectator is shown.
fn position_shown<C: Course, R: Wait>(rt: &R, spectator: Spectator<C>) -> (u32, Spectator<C>) {
    let shown = spectator.look(rt);
    let position = shown.position();
    (position, shown.end())
}

// What is shown before the second world is published, the position of its receipt, and what is shown behind it.
fn show_second<C: Course, R: Wait>(
    rt: &R,
    alloc: Global,
    script: &TScript,
    start: &World,
    second: World,
) -> Result<(u32, u32, u32), Memory>
    requires written_out { is_written_out script.now ≡ true }
    requires start { start.now.world ≡ still_at 0 }
    requires second { second.world ≡ still_at 1 }
    requires all { C.worlds ≡ (worlds script.now start.now.world 0 1 1).worlds }
    requires still { AreStill 2 C.worlds }
{
    let (mut publisher, mut spectators) = stand::<C, R>(alloc, rt, script, start, 0, 1, 1, 1)?;
    let (before, mut spectator) = position_shown(rt, spectators.pop().unwrap());
    let receipt = match publisher.publish(rt, second) {
        Ok(receipt) => receipt,
        Err(Memory) => {
            publisher.end(rt);
            return Err(Memory);
        }
    };
    spectator.learn(&receipt);
    let (after, _spectator) = position_shown(rt, spectator);
    publisher.end(rt);
    Ok((before, receipt.position(), after))
}

#[test]
fn a_spectator_that_learnt_sees_the_second_world(rt: HostRuntime) -> Result<(), Fail> {
    let alloc = rt.alloc();
    let script = TScript::idle(alloc);
    let start = still_world(alloc, 0)?;
    let second = still_world(alloc, 1)?;
    let told = show_second::<Brand, HostRuntime>(&rt, alloc, &script, &start, second)?;
    assert_equal(&rt, &told, &(0, 1, 1));
    Ok(())
}

// Publishes the world of this tick.
fn publish_tick<C: Course, R: Wait>(
    rt: &R,
    alloc: Global,
    publisher: &mut Publisher<C>,
    tick: u16,
) -> Result<Receipt<C>, Memory>
    requires published { publisher.old ≡ tick }
    requires entry { IsEntry C.worlds tick (still_at tick) }
    ensures { OnOk result (publisher.new ≡ tick + 1) }
{
    let world = still_world(alloc, tick)?;
    publisher.publish(rt, world)
}

// Publishes the worlds of the ticks 1 to 199, and gives the last receipt.
fn publish_all<C: Course, R: Wait>(
    rt: &R,
    alloc: Global,
    publisher: &mut Publisher<C>,
) -> Result<Receipt<C>, Memory>
    requires published { publisher.old ≡ 1 }
    requires all { AreStill 200 C.worlds }
{
    let mut last = publish_tick(rt, alloc, publisher, 1)?;
    for tick in 2..200 {
        last = publish_tick(rt, alloc, publisher, tick)?;
    }
    Ok(last)
}

// Whether the unit is there, and the greatest key that was given to any.
fn has_unit(world: &World) -> bool {
    world.find(5) == Some(0) && world.last_key() == 9
}

// Whether each of 200 looks shows the world of its position with its unit, and none goes back.
fn watch<C: Course, R: Wait>(rt: &R, spectator: Spectator<C>) -> (bool, Spectator<C>) {
    let mut spectator = spectator;
    let mut right = true;
    let mut seen = 0;
    for _ in 0..200 {
        let shown = spectator.look(rt);
        let position = shown.position();
        let world = shown.world();
        right = right && position >= seen && world.tick() as u32 == position && has_unit(world);
        seen = position;
        spectator = shown.end();
    }
    (right, spectator)
}

// Three spectators in threads beside a publisher: the last receipt, whether all saw what they should, and one of them.
fn watch_beside<C: Course + Send + Sync, R: Threads + Wait + Sync>(
    rt: &R,
    alloc: Global,
    publisher: &mut Publisher<C>,
    first: Spectator<C>,
    second: Spectator<C>,
    third: Spectator<C>,
) -> (Result<Receipt<C>, Memory>, bool, Spectator<C>)
    requires published { publisher.old ≡ 1 }
    requires all { AreStill 200 C.worlds }
{
    let (last, ((one, first), ((two, _second), (three, _third)))) = thread::join(
        rt,
        move ||
            requires { (publisher.now ≡ 1) × AreStill 200 C.worlds }
        { publish_all(rt, alloc, publisher) },
        move || {
            thread::join(
                rt,
                move || watch(rt, first),
                move || thread::join(rt, move || watch(rt, second), move || watch(rt, third)),
            )
        },
    );
    (last, one && two && three, first)
}

// Three of the spectators.
fn three<C: Course>(
    spectators: List<Spectator<C>>,
) -> Option<(Spectator<C>, Spectator<C>, Spectator<C>)> {
    let mut spectators = spectators;
    let first = spectators.pop()?;
    let second = spectators.pop()?;
    let third = spectators.pop()?;
    Some((first, second, third))
}

// Whether all spectators saw what they should, and what is shown to one that learnt of the last position.
fn show_all<C: Course + Send + Sync, R: Threads + Wait + Sync>(
    rt: &R,
    alloc: Global,
    script: &TScript,
    start: &World,
) -> Result<(bool, u32), Memory>
    requires written_out { is_written_out script.now ≡ true }
    requires start { start.now.world ≡ still_at 0 }
    requires all { C.worlds ≡ (worlds script.now start.now.world 0 1 199).worlds }
    requires still { AreStill 200 C.worlds }
{
    let (mut publisher, spectators) = stand::<C, R>(alloc, rt, script, start, 0, 1, 199, 3)?;
    let Some((first, second, third)) = three(spectators) else {
        publisher.end(rt);
        return Err(Memory);
    };
    let (last, right, mut first) = watch_beside(rt, alloc, &mut publisher, first, second, third);
    let Ok(last) = last else {
        publisher.end(rt);
        return Err(Memory);
    };
    first.learn(&last);
    let (position, _first) = position_shown(rt, first);
    publisher.end(rt);
    Ok((right, position))
}

#[test]
fn spectators_see_the_worlds_beside_the_publisher(rt: HostRuntime) -> Result<(), Fail> {
    let alloc = rt.alloc();
    let script = TScript::idle(alloc);
    let start = still_world(alloc, 0)?;
    let seen = show_all::<Brand, HostRuntime>(&rt, alloc, &script, &start)?;
    assert_equal(&rt, &seen, &(true, 199));
    Ok(())
}
