//! Writes a script out where its `main` keeps the limits of nodes and depth; elsewhere refuses it.
ghost use Rattle.std.specs.Prelude.{◌≡◌, [], true, IfOk, IfErr, OnOk};
ghost use Rattle.sgl_typed.specs.WellFormed.{is_well_formed};
ghost use Rattle.sgl_typed.specs.WrittenOut.{is_written_out};
ghost use Rattle.sgl_expand.specs.Expand.{main_of, IsExpandRefusal, IsSmall, IsWritten};
ghost use Rattle.sgl_expand.specs.Sizes.{capped};
ghost use Rattle.sgl_expand.specs.Written.{lets};
ghost use Rattle.sgl_typed.specs.Sizes.{written_depth, written_nodes};

use crate::prune::{prune_routines, prune_statements};
use crate::sizes::{Size, add, measure_routines, measure_statements};
use crate::write::Writing;
use sgl_typed::{DeepCopy, Schema, TAction, TAgg, TExpr, TRule, TScript, TSpawn, TStmt};
use sgl_values::{DEPTH_MAX, List, Memory, NODES_MAX};
use std::alloc::Global;

/// Why a script is not written out.
#[derive(Clone, Copy, Debug, PartialEq, Eq)]
pub enum ExpandFault {
    /// The written-out `main` has more than 20,000 nodes: so many, or `u64::MAX` where that is less.
    TooLarge { nodes: u64 },
    /// It has no more nodes, and its blocks are more than 256 deep: so deep.
    TooNested { depth: u64 },
    /// Want of memory.
    Memory,
}

impl From<Memory> for ExpandFault {
    ghost use Rattle.sgl_expand.specs.declared.script.ExpandFault.TheVariants as faults;

    ghost from_gives = { λ _ fault. fault ≡ faults.Memory };

    fn from(_memory: Memory) -> ExpandFault {
        ExpandFault::Memory
    }
}

// The size of the written-out `main`, whose own block counts for its depth.
fn measure_main(alloc: Global, script: &TScript) -> Result<Size, Memory>
    ensures nodes { IfOk result (λ main. main.nodes ≡ capped (written_nodes script.now.routines script.now.main)) }
    ensures depth { IfOk result (λ main. main.depth ≡ capped (written_depth script.now.routines script.now.main)) }
{
    let sizes = measure_routines(alloc, script.routines.as_slice())?;
    let inner = measure_statements(sizes.as_slice(), script.main.as_slice());
    let depth = add(1, inner.depth);
    Ok(Size { depth, ..inner })
}

// That the written-out `main` is within the limits.
fn check_sizes(alloc: Global, script: &TScript) -> Result<(), ExpandFault>
    ensures small { OnOk result (IsSmall script.now) }
    ensures refused { IfErr result (IsExpandRefusal script.now) }
{
    let Size { nodes, depth } = measure_main(alloc, script)?;
    if nodes > NODES_MAX {
        return Err(ExpandFault::TooLarge { nodes });
    }
    if depth > DEPTH_MAX {
        return Err(ExpandFault::TooNested { depth });
    }
    Ok(())
}

// A script of parts that fit.
fn assemble(
    schema: Schema,
    aggs: List<TAgg>,
    actions: List<TAction>,
    main: List<TStmt>,
    slots: u32,
    rules: List<TRule>,
    spawn: Option<TSpawn>,
    removal: Option<TExpr>,
    alloc: Global,
) -> TScript
    requires { is_well_formed schema aggs actions [] main slots rules spawn removal ≡ true }
    ensures schema { result.schema ≡ schema }
    ensures aggs { result.aggs ≡ aggs }
    ensures actions { result.actions ≡ actions }
    ensures routines { result.routines ≡ [] }
    ensures main { result.main ≡ main }
    ensures slots { result.slots ≡ slots }
    ensures rules { result.rules ≡ rules }
    ensures spawn { result.spawn ≡ spawn }
    ensures removal { result.removal ≡ removal }
{
    TScript {
        schema,
        aggs,
        actions,
        routines: List::new(alloc),
        main,
        slots,
        rules,
        spawn,
        removal,
    }
}

// The written-out `main`, and the number of its lets.
fn write_main(alloc: Global, script: &TScript) -> Result<(List<TStmt>, u32), Memory>
    ensures main { IfOk result (λ made. made.0 ≡ main_of script.now) }
    ensures slots { IfOk result (λ made. made.1 ≡ lets (main_of script.now)) }
{
    let routines = prune_routines(alloc, script.routines.as_slice())?;
    let main = prune_statements(alloc, routines.as_slice(), script.main.as_slice())?;
    let mut writing = Writing::new(alloc);
    let made = writing.write_block(routines.as_slice(), main.as_slice(), DEPTH_MAX)?;
    Ok((made, writing.numbering.next))
}

fn write_script(alloc: Global, script: &TScript) -> Result<TScript, Memory>
    ensures { IfOk result (IsWritten script.now) }
{
    let (main, slots) = write_main(alloc, script)?;
    let schema = script.schema.deep_copy(alloc)?;
    let aggs = script.aggs.deep_copy(alloc)?;
    let actions = script.actions.deep_copy(alloc)?;
    let rules = script.rules.deep_copy(alloc)?;
    let spawn = script.spawn.deep_copy(alloc)?;
    let removal = script.removal.deep_copy(alloc)?;
    Ok(assemble(
        schema, aggs, actions, main, slots, rules, spawn, removal, alloc,
    ))
}

/// Writes the routines of a script out: each call becomes a `let` for each argument, at the place of the argument, and then
/// the statements of the routine, with lets numbered from 0 in their order. Everything but `main` stays as it is.
///
/// `TooLarge` comes exactly where `main` would have more than 20,000 nodes, and `TooNested` exactly where it would not, and
/// its blocks would be more than 256 deep. Both are told before anything is written out, by counts that stop at `u64::MAX`,
/// in time in proportion to the script. `Memory` comes for want of memory.
pub fn expand(alloc: Global, script: &TScript) -> Result<TScript, ExpandFault>
    ensures written { IfOk result (IsWritten script.now) }
    ensures written_out { IfOk result (λ out. is_written_out out ≡ true) }
    ensures refused { IfErr result (IsExpandRefusal script.now) }
{
    check_sizes(alloc, script)?;
    Ok(write_script(alloc, script)?)
}
