//! The top call.
ghost use Rattle.std.specs.Prelude.{◌≡◌, ◌⊎◌, ◌&&◌, IfSome, None, Some, true, false, length, map, not, string_bytes};
ghost use Rattle.std.specs.Io.KnownBytes.{Keeps};
ghost use Rattle.sgl_outside.specs.Causes.{Rose};
ghost use Rattle.sgl_outside.specs.Sinks.{Writes};
ghost use Rattle.battle_host.specs.Play.{IsBegun, is_told};
ghost use Rattle.battle_host.specs.Run.{Ends, HasNamedFault, IsCut, WritesCut, WritesRun, WritesSomeLine};
ghost use Rattle.battle_host.specs.Start.{holds_no_memory, no_schema};
ghost use Rattle.battle_host.specs.StatusLine.{line_of};
ghost use Rattle.battle_host.specs.Explain.{IsPlanOf, PlaysOf};
ghost use Rattle.battle_words.specs.Words.{AreWithin, settings, settings_of};

use crate::context::RunContext;
use crate::explain::explain;
use crate::spectators::play;
use crate::start::{Ended, Opening, no_schema, start_battle, unread};
use crate::status::Status;
use crate::status_line::write_line;
use battle_words::{RunSettings, WordsFault, read_words};
use sgl_outside::{Failed, Folder, Gate, Sink};
use sgl_values::Memory;
use std::alloc::Global;
use std::marker::Brand;
use std::sync::Wait;
use std::thread::Threads;
use tick_engine::{Battle, EngineSettings};

/// Does all that the program does: reads the words behind its name, the script and the units, and writes the worlds.
///
/// The work goes in this order, and the first refusal ends it: the words are read; the script is read to its end, at
/// most 1,048,576 bytes, and then the units, at most 16,777,216 bytes, or both are made where the words ask for a sample,
/// and then no file is begun; the plan is written where it is asked for; world 0 is written, and after each tick the
/// next world, a line a piece, or the summary of each where that is asked for; where the plan is, the line of the nodes that
/// the tick reached stands before the world. A refusal writes its line to `err`; a failed write of it changes nothing else.
///
/// The workers of a tick pass the gate before each task that they claim. Their number and the engine never change what is
/// written. Beside the ticks the spectators look, each in a thread of its own where one can be started: at world 0, and at
/// each further world once it is written. Spectator s passes the gate before each of its looks, as worker 64 + s. Behind the
/// last world, or the refusal of a tick, each looks once more, at the last world, and its line is written. Without spectators
/// no world is copied, and with one worker and none of them no thread is started.
pub fn run_battle<R: Threads + Wait + Sync, F: Folder, O: Sink + Send, E: Sink, G: Gate>(
    rt: &R,
    alloc: Global,
    words: &[String],
    files: &mut F,
    out: &mut O,
    err: &mut E,
    gate: &G,
) -> Status
    // Where no fault of the outside and no want of memory ends it, the status, the text and the line are those of the words and the bytes.
    ensures run { is_told result ≡ true → IfSome (F.held files.old) (λ held. WritesRun (settings_of (map string_bytes words.now)) held result (O.written out.old) (O.written out.new) (E.written err.old) (E.written err.new) (E.faults err.old) (E.faults err.new)) }

    // The usage line comes only where the words are not those of a command line, and then nothing else does, but for want of memory.
    ensures usage { result ≡ Status.Usage → settings_of (map string_bytes words.now) ≡ None }
    ensures no_words { settings_of (map string_bytes words.now) ≡ None → (result ≡ Status.Usage) ⊎ (result ≡ Status.Memory) }

    // A read fault comes only where the folder failed at a file that the words name, and the units' only with a script that is not refused.
    ensures read_fault { result ≡ Status.ReadFault → HasNamedFault (settings_of (map string_bytes words.now)) (F.held files.old) (F.faults files.old) (F.faults files.new) }
    ensures unread { result ≡ Status.ReadFault → Keeps (O.written out.old) (O.written out.new) }

    // A write fault comes only where the sink failed, and a prefix of a run's text was written then.
    ensures write_fault { result ≡ Status.WriteFault → Rose (O.faults out.old) (O.faults out.new) }
    ensures cut { result ≡ Status.WriteFault → IfSome (F.held files.old) (λ held. WritesCut (settings_of (map string_bytes words.now)) held (O.written out.old) (O.written out.new)) }

    // Want of memory stands inside no other status, and leaves nothing or a prefix of a run's text.
    ensures memory { holds_no_memory result ≡ true }
    ensures ended { result ≡ Status.Memory → IfSome (F.held files.old) (λ held. IsCut (settings_of (map string_bytes words.now)) held (O.written out.old) (O.written out.new)) }

    // The line of the status is written, with the names of some script, or a prefix of it where that sink failed.
    ensures line { WritesSomeLine (E.written err.old) (E.written err.new) (E.faults err.old) (E.faults err.new) result }
{
    let ended = run_words(rt, alloc, words, files, out, gate);
    // A failed write of the line changes no status.
    let _ = write_line(err, &ended.schema, ended.status);
    ended.status
}

/// Writes the line of a status that tells no name, as where the words of a process cannot be had; a prefix of it where the
/// sink failed.
pub fn write_status<E: Sink>(alloc: Global, err: &mut E, status: Status) -> Result<(), Failed>
    ensures { Writes (E.written err.old) (E.written err.new) (E.faults err.old) (E.faults err.new) result (line_of no_schema status) }
{
    write_line(err, &no_schema(alloc), status)
}

// All but the line.
fn run_words<R: Threads + Wait + Sync, F: Folder, O: Sink, G: Gate>(
    rt: &R,
    alloc: Global,
    words: &[String],
    files: &mut F,
    out: &mut O,
    gate: &G,
) -> Ended
    ensures { Ends (settings_of (map string_bytes words.now)) (F.held files.old) (F.faults files.old) (F.faults files.new) (O.written out.old) (O.written out.new) (O.faults out.old) (O.faults out.new) result.schema result.status }
{
    match read_words(alloc, words) {
        Ok(settings) => {
            let context = RunContext {
                rt,
                alloc,
                run: &settings,
                gate,
            };
            run_settings(&context, files, out)
        }
        Err(WordsFault::Usage) => unread(alloc, Status::Usage),
        Err(WordsFault::Memory) => unread(alloc, Status::Memory),
    }
}

// A run of settings.
fn run_settings<R: Threads + Wait + Sync, F: Folder, O: Sink, G: Gate>(
    context: &RunContext<R, G>,
    files: &mut F,
    out: &mut O,
) -> Ended
    requires { AreWithin context.now.run.now }
    ensures { Ends (Some (settings context.now.run.now)) (F.held files.old) (F.faults files.old) (F.faults files.new) (O.written out.old) (O.written out.new) (O.faults out.old) (O.faults out.new) result.schema result.status }
{
    match start_battle(context.alloc, context.run, files) {
        Ok(Opening { compiled, world }) => {
            match Battle::new(context.alloc, compiled, world, engine_of(context.run)) {
                Ok(battle) => run_engine(context, battle, out),
                Err(Memory) => unread(context.alloc, Status::Memory),
            }
        }
        Err(ended) => ended,
    }
}

// How the ticks are run. No words ask for the plain engine and for a plan to explain.
fn engine_of(run: &RunSettings) -> EngineSettings
    ensures { result ≡ record { seed = run.now.seed; workers = run.now.workers; items = run.now.items; plain = run.now.plain && not run.now.explain } }
{
    EngineSettings {
        seed: run.seed,
        workers: run.workers,
        items: run.items,
        plain: run.plain && !run.explain,
    }
}

// A run of a battle before its first tick, with the names of its script.
fn run_engine<R: Threads + Wait + Sync, O: Sink, G: Gate>(
    context: &RunContext<R, G>,
    mut battle: Battle,
    out: &mut O,
) -> Ended
    requires begun { IsBegun context.now.run.now battle }
    requires plan { IsPlanOf battle.script battle.plan.plan.nodes }
    ensures schema { result.schema ≡ battle.script.schema }
    ensures played { PlaysOf (O.written out.old) (O.written out.new) (O.faults out.old) (O.faults out.new) (settings context.now.run.now) battle.script battle.world result.status }
{
    let status = run_ticks(context, &mut battle, out);
    Ended {
        status,
        schema: battle.into_script().schema,
    }
}

// The plan of a battle, where it is asked for, and its ticks.
fn run_ticks<R: Threads + Wait + Sync, O: Sink, G: Gate>(
    context: &RunContext<R, G>,
    battle: &mut Battle,
    out: &mut O,
) -> Status
    requires begun { IsBegun context.now.run.now battle.old }
    requires plan { IsPlanOf battle.old.script battle.old.plan.plan.nodes }
    ensures played { PlaysOf (O.written out.old) (O.written out.new) (O.faults out.old) (O.faults out.new) (settings context.now.run.now) battle.old.script battle.old.world result }
    ensures script { battle.new.script ≡ battle.old.script }
{
    match explain(context.run.explain, battle, out) {
        Ok(()) => play::<Brand, R, O, G>(context, battle, out),
        Err(status) => status,
    }
}
