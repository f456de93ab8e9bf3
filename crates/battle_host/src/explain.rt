//! The plan of a run.
ghost use Rattle.std.specs.Prelude.{◌≡◌, IfOk, length, map};
ghost use Rattle.std.specs.List.{range_with_len};
ghost use Rattle.battle_host.specs.Explain.{shown_plan};
ghost use Rattle.battle_host.specs.Play.{IsShown, shown_nodes, told_reach};
ghost use Rattle.task_scratch.specs.Scratch.{reach_at};

use crate::status::Status;
use battle_report::{write_plan, write_reach};
use sgl_outside::{Failed, Sink};
use sgl_values::Memory;
use std::alloc::Global;
use tick_engine::Battle;

/// Writes the plan in normal form by which the ticks of a battle are run, where it is asked for.
pub fn explain<O: Sink>(asked: bool, battle: &Battle, out: &mut O) -> Result<(), Status>
    ensures { IsShown (O.written out.old) (O.written out.new) (O.faults out.old) (O.faults out.new) (shown_plan battle.now.script (shown_nodes asked battle.now.plan.plan.nodes)) result }
{
    if !asked {
        return Ok(());
    }
    match write_plan(battle.script(), battle.normal(), out) {
        Ok(()) => Ok(()),
        Err(Failed) => Err(Status::WriteFault),
    }
}

/// Writes how many frames reached each node of the plan in the tick of this number, which was the last, where it is asked for.
pub fn explain_tick<O: Sink>(
    alloc: Global,
    asked: bool,
    at: u16,
    battle: &Battle,
    out: &mut O,
) -> Result<(), Status>
    ensures { IsShown (O.written out.old) (O.written out.new) (O.faults out.old) (O.faults out.new) (told_reach asked at battle.now.plan.plan.nodes battle.now.reached) result }
{
    if !asked {
        return Ok(());
    }
    let Ok(counts) = counts_of(alloc, battle) else {
        return Err(Status::Memory);
    };
    match write_reach(at, counts.as_slice(), out) {
        Ok(()) => Ok(()),
        Err(Failed) => Err(Status::WriteFault),
    }
}

// The counts of the nodes, in their order.
fn counts_of(alloc: Global, battle: &Battle) -> Result<Vec<u64>, Memory>
    ensures { IfOk result (λ counts. counts.items ≡ map (reach_at battle.now.reached) (range_with_len 0 (length battle.now.plan.plan.nodes))) }
{
    let reached = battle.counts();
    let mut counts = Vec::new(alloc);
    for node in 0..battle.normal().plan().nodes.len() {
        counts.push(count_or_zero(reached, node))?;
    }
    Ok(counts)
}

fn count_or_zero(reached: &[u64], node: usize) -> u64
    ensures { result ≡ reach_at reached.now node }
{
    reached.get(node).copied().unwrap_or(0)
}
