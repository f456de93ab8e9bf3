//! Tests of a tick as a machine.

ghost use Rattle.std.specs.Prelude.{◌≡◌, [], ◌∷◌, IfOk};
ghost use Rattle.tick_core.specs.Core.{at_start};

use crate::tests::equal::assert_equal;
use sgl_values::{Memory, Tag};
use std::alloc::Global;
use std::test::Fail;
use test_cases::one;
use tick_core::{
    CoreEvent, CoreTick, PlayFault, cells_have_words, each_task_once, events_keep_fair, gives_join,
    starts_are_fair, totals_ignore_order, totals_join, workers_stand_for_all,
};

// A core of one task and one word, a sum.
fn small_core(alloc: Global) -> Result<CoreTick, Memory>
    ensures { IfOk result (λ core. core ≡ at_start 1 1 (Tag.Sum ∷ [])) }
{
    let tags = one(alloc, Tag::Sum)?;
    CoreTick::new(alloc, 1, 1, &tags)
}

#[test]
fn a_worker_claims_and_gives(rt: HostRuntime) -> Result<(), Fail> {
    let mut core = small_core(rt.alloc())?;
    assert_equal(&rt, &core.claim(0)?, &Some(0));
    core.give(0, 0, 5)?;
    assert_equal(&rt, &core.claim(0)?, &None);
    assert_equal(&rt, &core.word(0), &5);
    assert_equal(&rt, &core.split(0)?, &1);
    core.join(0, 1)?;
    assert_equal(&rt, &core.word(0), &5);
    Ok(())
}

// Events of two workers. The last is bad, since that worker is joined.
const EVENTS: [CoreEvent; 6] = [
    CoreEvent::Split { worker: 0 },
    CoreEvent::Claim { worker: 1 },
    CoreEvent::Claim { worker: 0 },
    CoreEvent::Give {
        worker: 1,
        word: 0,
        amount: 5,
    },
    CoreEvent::Join { into: 0, from: 1 },
    CoreEvent::Claim { worker: 1 },
];

#[test]
fn events_are_played_up_to_a_bad_one(rt: HostRuntime) -> Result<(), Fail> {
    let mut core = small_core(rt.alloc())?;
    let played = core.play(EVENTS.as_slice());
    assert_equal(&rt, &played.err(), &Some(PlayFault::Bad { at: 5 }));
    assert_equal(&rt, &core.word(0), &5);
    core.turn();
    assert_equal(&rt, &core.word(0), &0);
    Ok(())
}

#[test]
fn played_events_have_answers(rt: HostRuntime) -> Result<(), Fail> {
    let mut core = small_core(rt.alloc())?;
    let answers = core.play(&EVENTS[..3])?;
    assert_equal(
        &rt,
        &answers.as_slice(),
        &[Some(1), Some(0), None].as_slice(),
    );
    starts_are_fair();
    events_keep_fair();
    cells_have_words();
    gives_join();
    each_task_once();
    totals_ignore_order();
    totals_join();
    workers_stand_for_all();
    Ok(())
}
