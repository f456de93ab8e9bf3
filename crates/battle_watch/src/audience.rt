//! All spectators of a run, from their seats to their lines.
ghost use Rattle.std.specs.Prelude.{◌≡◌, ◌+◌, ◌<◌, ◌≤◌, true, All, IfOk, MatchOption, length, map};
ghost use Rattle.sgl_outside.specs.Sinks.{Writes};
ghost use Rattle.sgl_typed.specs.Tick.{worlds};
ghost use Rattle.sgl_typed.specs.WrittenOut.{is_written_out};
ghost use Rattle.battle_watch.specs.Stages.{IsLastOf};
ghost use Rattle.battle_watch.specs.Watches.{AreNumbered, WritesWatches, watch_text};
ghost use Rattle.battle_watch.specs.Watching.{HasEnded, HasLooked};

use crate::stage::Stage;
use crate::watch::Watch;
use battle_report::write_watch;
use env_table::World;
use sgl_outside::{Failed, Gate, Sink};
use sgl_typed::TScript;
use sgl_values::{ITEMS_MAX, List, Memory, SPECTATORS_MAX, TICKS_MAX};
use std::alloc::Global;
use std::sync::Wait;
use std::thread::{Threads, for_each_mut};
use world_publish::{Course, Receipt, Spectator, stand};

/// The stage of a run, which has shown its start, and so many spectators, at most 16, with room for so many looks and one
/// more. Without spectators there is no stage, and no memory is taken. The arguments are those of `stand`.
pub fn begin_watch<C: Course, R: Wait>(
    alloc: Global,
    rt: &R,
    script: &TScript,
    start: &World,
    seed: u64,
    items: u64,
    ticks: u16,
    spectators: u32,
    looks: u32,
) -> Result<(Option<Stage<C>>, Vec<Watch<C>>), Memory>
    requires written_out { is_written_out script.now ≡ true }
    requires start { start.now.world.tick ≡ 0 }
    requires items { (0 < items) × (items ≤ ITEMS_MAX) }
    requires ticks { ticks ≤ TICKS_MAX }
    requires spectators { spectators ≤ SPECTATORS_MAX }
    requires all { C.worlds ≡ (worlds script.now start.now.world seed items ticks).worlds }
    ensures stage { IfOk result (λ made. MatchOption made.0 (spectators ≡ 0) (λ shown. shown ≡ 1)) }
    ensures full { IfOk result (λ made. length made.1.items ≡ spectators) }
    ensures fresh { IfOk result (λ made. All (HasLooked 0 (looks + 1)) made.1.items) }
{
    if spectators == 0 {
        return Ok((None, Vec::new(alloc)));
    }
    let (publisher, seated) = stand::<C, R>(
        alloc, rt, script, start, seed, items, ticks, spectators,
    )?;
    let stage = Stage::new(publisher);
    match seat(alloc, seated, looks) {
        Ok(watches) => Ok((Some(stage), watches)),
        Err(Memory) => {
            stage.end(rt);
            Err(Memory)
        }
    }
}

// The spectators with room for their notes.
fn seat<C: Course>(
    alloc: Global,
    spectators: List<Spectator<C>>,
    looks: u32,
) -> Result<Vec<Watch<C>>, Memory>
    requires all { AreNumbered C.worlds }
    requires few { length spectators ≤ SPECTATORS_MAX }
    ensures full { IfOk result (λ seated. length seated.items ≡ length spectators) }
    ensures fresh { IfOk result (λ seated. All (HasLooked 0 (looks + 1)) seated.items) }
{
    let mut spectators = spectators;
    let mut seated = Vec::with_capacity(alloc, spectators.len())?;
    let mut number = 0;
    while let Some(spectator) = spectators.pop() {
        seated.push(Watch::new(alloc, number, spectator, looks)?)?;
        number += 1;
    }
    Ok(seated)
}

/// Each spectator looks so often, in a thread of its own where one can be started, and passes the gate before each look.
pub fn look_all<C: Course + Send + Sync, R: Threads + Wait + Sync, G: Gate>(
    rt: &R,
    gate: &G,
    watches: &mut Vec<Watch<C>>,
    looks: u32,
)
    requires { All (HasLooked 0 (looks + 1)) watches.old.items }
    ensures full { length watches.new.items ≡ length watches.old.items }
    ensures looked { All (HasLooked looks 1) watches.new.items }
{
    let threads = watches.len().max(1);
    for_each_mut(
        rt,
        watches.as_mut_slice(),
        threads,
        &|_, watch: &mut Watch<C>|
            requires { HasLooked 0 (looks + 1) watch.now }
        { watch.look_often(rt, gate, looks) },
    );
}

/// Each spectator learns of what was shown last, and looks once more; then the stage is ended, and the line of each is
/// written, in order of numbers.
pub fn end_watch<C: Course + Send + Sync, R: Threads + Wait + Sync, O: Sink>(
    rt: &R,
    stage: Option<Stage<C>>,
    watches: Vec<Watch<C>>,
    looks: u32,
    out: &mut O,
) -> Result<(), Failed>
    requires few { length watches.items ≤ SPECTATORS_MAX }
    requires looked { All (HasLooked looks 1) watches.items }
    requires stage { MatchOption stage (length watches.items ≡ 0) (λ shown. shown ≡ length C.worlds) }
    ensures { WritesWatches C.worlds (length watches.items) looks (O.written out.old) (O.written out.new) (O.faults out.old) (O.faults out.new) result }
{
    match stage {
        Some(stage) => {
            let mut watches = watches;
            look_last(rt, &mut watches, stage.last(), looks);
            stage.end(rt);
            write_watches(&watches, out)
        }
        None => Ok(()),
    }
}

// Each spectator learns of the last receipt, and looks once more.
fn look_last<C: Course + Send + Sync, R: Threads + Wait + Sync>(
    rt: &R,
    watches: &mut Vec<Watch<C>>,
    last: &Option<Receipt<C>>,
    looks: u32,
)
    requires looked { All (HasLooked looks 1) watches.old.items }
    requires last { IsLastOf (length C.worlds) last.now }
    ensures full { length watches.new.items ≡ length watches.old.items }
    ensures ended { All (HasEnded C.worlds looks) watches.new.items }
{
    for_each_mut(
        rt,
        watches.as_mut_slice(),
        1,
        &|_, watch: &mut Watch<C>|
            requires { HasLooked looks 1 watch.now × IsLastOf (length C.worlds) last.now }
        { watch.look_last(rt, last, looks) },
    );
}

// Writes the line of each spectator.
fn write_watches<C: Course, O: Sink>(watches: &Vec<Watch<C>>, out: &mut O) -> Result<(), Failed>
    requires { length watches.now.items ≤ SPECTATORS_MAX }
    ensures { Writes (O.written out.old) (O.written out.new) (O.faults out.old) (O.faults out.new) result (watch_text 0 (map (λ watch. watch.notes) watches.now.items)) }
{
    for number in 0..watches.len() {
        if let Err(Failed) = write_watch(number as u32, watches[number].notes(), out) {
            return Err(Failed);
        }
    }
    Ok(())
}
