//! The ticks of a run, beside those who watch it.
ghost use Rattle.std.specs.Prelude.{◌≡◌, ◌+◌, All, length};
ghost use Rattle.battle_host.specs.Play.{IsBegun, IsPlanned, IsReady, Played, PlaysWorlds, is_told, lines_of, run_end, run_of, shown_nodes};
ghost use Rattle.battle_watch.specs.Watching.{HasLooked};
ghost use Rattle.battle_words.specs.Words.{settings};
ghost use Rattle.sgl_typed.specs.Tick.{worlds};

use crate::context::RunContext;
use crate::status::Status;
use crate::worlds::play_ticks;
use battle_watch::{Stage, Watch, begin_watch, end_stage, end_watch, look_all};
use sgl_outside::{Failed, Gate, Sink};
use sgl_values::Memory;
use std::sync::Wait;
use std::thread::{Threads, join_mut};
use tick_engine::Battle;
use world_publish::Course;

/// Writes the worlds of a run, which are those of `C`, while its spectators look at them, and then the line of each
/// spectator. Without spectators no world is copied, and no thread is started for any.
pub fn play<C: Course + Send + Sync, R: Threads + Wait + Sync, O: Sink, G: Gate>(
    context: &RunContext<R, G>,
    battle: &mut Battle,
    out: &mut O,
) -> Status
    requires begun { IsBegun context.now.run.now battle.old }
    requires all { C.worlds ≡ (run_of (settings context.now.run.now) battle.old.script battle.old.world).worlds }
    ensures played { PlaysWorlds (O.written out.old) (O.written out.new) (O.faults out.old) (O.faults out.new) (settings context.now.run.now) battle.old.script (shown_nodes context.now.run.now.explain battle.old.plan.plan.nodes) battle.old.world result }
    ensures script { battle.new.script ≡ battle.old.script }
{
    let run = context.run;
    let (mut stage, mut watches) = match begin_watch::<C, R>(
        context.alloc,
        context.rt,
        battle.script(),
        battle.world(),
        run.seed,
        run.items,
        run.ticks,
        run.watch,
        run.looks,
    ) {
        Ok(made) => made,
        Err(Memory) => return Status::Memory,
    };
    let status = play_beside(context, battle, out, &mut stage, &mut watches);
    if !is_told(&status) {
        end_stage(context.rt, stage);
        return status;
    }
    match end_watch(context.rt, stage, watches, run.looks, out) {
        Ok(()) => status,
        Err(Failed) => Status::WriteFault,
    }
}

// The ticks in this thread, beside the spectators in theirs.
fn play_beside<C: Course + Send + Sync, R: Threads + Wait + Sync, O: Sink, G: Gate>(
    context: &RunContext<R, G>,
    battle: &mut Battle,
    out: &mut O,
    stage: &mut Option<Stage<C>>,
    watches: &mut Vec<Watch<C>>,
) -> Status
    requires ready { IsReady C.worlds battle.old.script battle.old.world battle.old.settings.seed battle.old.settings.items context.now.run.now.ticks stage.old }
    requires plan { IsPlanned context.now.run.now.explain battle.old }
    requires fresh { All (HasLooked 0 (context.now.run.now.looks + 1)) watches.old.items }
    ensures played { Played (O.written out.old) (O.written out.new) (O.faults out.old) (O.faults out.new) context.now.run.now.summary (lines_of context.now.run.now.explain battle.old) battle.old.script battle.new.script C.worlds (run_end (worlds battle.old.script battle.old.world.world battle.old.settings.seed battle.old.settings.items context.now.run.now.ticks)) result stage.old stage.new }
    ensures full { length watches.new.items ≡ length watches.old.items }
    ensures looked { All (HasLooked context.now.run.now.looks 1) watches.new.items }
{
    if watches.is_empty() {
        return play_ticks(context, battle, out, stage);
    }
    let (rt, gate, looks) = (context.rt, context.gate, context.run.looks);
    let (_, played) = join_mut(
        rt,
        &mut ||
            requires { All (HasLooked 0 (looks + 1)) watches.now.items }
        { look_all(rt, gate, watches, looks) },
        &mut ||
            requires ready { IsReady C.worlds battle.now.script battle.now.world battle.now.settings.seed battle.now.settings.items context.now.run.now.ticks stage.now }
            requires plan { IsPlanned context.now.run.now.explain battle.now }
        { play_ticks(context, battle, out, stage) },
    );
    played
}

// Whether the words and the bytes gave this status.
fn is_told(status: &Status) -> bool
    ensures { result ≡ is_told status.now }
{
    match status {
        Status::ReadFault | Status::WriteFault | Status::Memory => false,
        Status::Done
        | Status::Usage
        | Status::Script(_)
        | Status::Units(_)
        | Status::Battle { .. } => true,
    }
}
