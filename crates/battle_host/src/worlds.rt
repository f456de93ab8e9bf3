//! The worlds of a run, one after the other.
ghost use Rattle.std.specs.Prelude.{◌≡◌, ◌<◌, ◌≤◌, ◌++◌, MatchResult};
ghost use Rattle.battle_host.specs.Play.{IsNext, IsPlanned, IsReady, IsShown, IsTurn, Played, lines_of, run_end, shown_text, status_of, told_reach, turned_to};
ghost use Rattle.battle_watch.specs.Stages.{one_more};
ghost use Rattle.sgl_outside.specs.Sinks.{Writes};
ghost use Rattle.sgl_typed.specs.Tick.{tick, worlds};

use crate::context::RunContext;
use crate::explain::explain_tick;
use crate::status::Status;
use battle_report::write_summary;
use battle_watch::{Stage, publish_world};
use sgl_outside::{Failed, Gate, Sink};
use sgl_typed::TickFault;
use sgl_values::{Memory, TICKS_MAX};
use std::sync::Wait;
use std::thread::Threads;
use tick_engine::Battle;
use unit_csv::write_world;
use world_publish::Course;

/// Writes world 0 and then the world behind each tick, or their summaries, and stops at the first tick that has no next
/// world. Where the plan is shown the line of each tick stands before the world that it made. A stage, where there is one,
/// shows each world but the first, which it has shown.
pub fn play_ticks<C: Course, R: Threads + Wait + Sync, O: Sink, G: Gate>(
    context: &RunContext<R, G>,
    battle: &mut Battle,
    out: &mut O,
    stage: &mut Option<Stage<C>>,
) -> Status
    requires ready { IsReady C.worlds battle.old.script battle.old.world battle.old.settings.seed battle.old.settings.items context.now.run.now.ticks stage.old }
    requires plan { IsPlanned context.now.run.now.explain battle.old }
    ensures { Played (O.written out.old) (O.written out.new) (O.faults out.old) (O.faults out.new) context.now.run.now.summary (lines_of context.now.run.now.explain battle.old) battle.old.script battle.new.script C.worlds (run_end (worlds battle.old.script battle.old.world.world battle.old.settings.seed battle.old.settings.items context.now.run.now.ticks)) result stage.old stage.new }
{
    let run = context.run;
    if let Err(Failed) = show(battle, run.summary, out) {
        return Status::WriteFault;
    }
    for tick in 0..run.ticks {
        if let Err(status) = turn(context, battle, tick, out, stage) {
            return status;
        }
    }
    Status::Done
}

// Writes the world of the last tick, or its summary where that is asked for.
fn show<O: Sink>(battle: &Battle, summary: bool, out: &mut O) -> Result<(), Failed>
    ensures { Writes (O.written out.old) (O.written out.new) (O.faults out.old) (O.faults out.new) result (shown_text summary battle.now.script.schema battle.now.world.world) }
{
    if summary {
        write_summary(battle.world(), out)
    } else {
        write_world(battle.world(), &battle.script().schema, out)
    }
}

// The same with the line of the tick of this number, which made the world, before it, where the plan is shown.
fn show_tick<R, O: Sink, G>(
    context: &RunContext<R, G>,
    battle: &Battle,
    at: u16,
    out: &mut O,
) -> Result<(), Status>
    ensures { IsShown (O.written out.old) (O.written out.new) (O.faults out.old) (O.faults out.new) (told_reach context.now.run.now.explain at battle.now.plan.plan.nodes battle.now.reached ++ shown_text context.now.run.now.summary battle.now.script.schema battle.now.world.world) result }
{
    let run = context.run;
    if let Err(status) = explain_tick(context.alloc, run.explain, at, battle, out) {
        return Err(status);
    }
    match show(battle, run.summary, out) {
        Ok(()) => Ok(()),
        Err(Failed) => Err(Status::WriteFault),
    }
}

// Runs a tick, and writes the world behind it; then a stage shows it, where there is one.
fn turn<C: Course, R: Threads + Wait + Sync, O: Sink, G: Gate>(
    context: &RunContext<R, G>,
    battle: &mut Battle,
    at: u16,
    out: &mut O,
    stage: &mut Option<Stage<C>>,
) -> Result<(), Status>
    requires numbered { battle.old.world.world.tick ≡ at }
    requires early { at < TICKS_MAX }
    requires plan { IsPlanned context.now.run.now.explain battle.old }
    requires entry { IsNext C.worlds stage.old (tick battle.old.script battle.old.world.world battle.old.settings.seed battle.old.settings.items) }
    ensures turn { IsTurn (O.written out.old) (O.written out.new) (O.faults out.old) (O.faults out.new) context.now.run.now.summary battle.old.script.schema (lines_of context.now.run.now.explain battle.old battle.old.world.world) battle.old.world (tick battle.old.script battle.old.world.world battle.old.settings.seed battle.old.settings.items) (turned_to battle.new.world result) }
    ensures later { O.faults out.old ≤ O.faults out.new }
    ensures shown { MatchResult result (λ _. stage.new ≡ one_more stage.old) (λ _. stage.new ≡ stage.old) }
    ensures script { battle.new.script ≡ battle.old.script }
    ensures nodes { battle.new.plan ≡ battle.old.plan }
    ensures settings { battle.new.settings ≡ battle.old.settings }
{
    if let Err(fault) = battle.run_tick(context.rt, context.gate) {
        return Err(status_of(at, fault));
    }
    if let Err(status) = show_tick(context, battle, at, out) {
        return Err(status);
    }
    match publish_world(context.rt, context.alloc, battle.world(), stage) {
        Ok(()) => Ok(()),
        Err(Memory) => Err(Status::Memory),
    }
}

// Want of memory is a status of its own.
fn status_of(at: u16, fault: TickFault) -> Status
    ensures { result ≡ status_of at fault }
{
    match fault {
        TickFault::Memory => Status::Memory,
        fault => Status::Battle { tick: at, fault },
    }
}
