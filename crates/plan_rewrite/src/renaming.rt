//! Slots that are read in place of others.
ghost use Rattle.std.specs.Prelude.{◌≡◌, reverse, IfOk};
ghost use Rattle.plan_rewrite.specs.Rewrite.{all_moved, moved, moved_act as act_moved, moved_call as call_moved, slot_for as slot_by};

use battle_algebra::EffectUse;
use sgl_typed::{AggUse, OtherSlots, TExpr, rename_expr, rename_exprs};
use sgl_values::{List, Memory};
use std::alloc::Global;

/// A slot that is read in place of another one.
#[derive(Clone, Copy, Debug)]
pub struct Renaming {
    pub from: u32,
    pub to: u32,
}

// The slot that is read in place of this one; the last renaming goes first.
fn slot_for(renamings: &[Renaming], slot: u32) -> u32
    ensures { result ≡ slot_by (reverse renamings.now) slot }
{
    let len = renamings.len();
    for behind in 0..len {
        let renaming = &renamings[len - (behind + 1)];
        if slot == renaming.from {
            return renaming.to;
        }
    }
    slot
}

// Renamings, of which the last goes first.
#[derive(Clone, Copy)]
struct Renamings<'a> {
    list: &'a [Renaming],
}

impl OtherSlots for Renamings<'_> {
    ghost slot_for = { λ renamings. slot_by (reverse renamings.list.now) };

    fn slot_for(&self, slot: u32) -> u32 {
        slot_for(self.list, slot)
    }
}

// A call with other arguments.
fn with_args(call: &AggUse, args: List<TExpr>) -> AggUse
    ensures { result ≡ record { agg = call.now.agg; args = args; place = call.now.place } }
{
    AggUse {
        agg: call.agg,
        args,
        place: call.place,
    }
}

/// An expression by renamings.
#[tactic(auto, using(crate::proofs::Moving::moved_are))]
pub fn moved_expr(alloc: Global, renamings: &[Renaming], expr: &TExpr) -> Result<TExpr, Memory>
    ensures { IfOk result (λ e. e ≡ moved (reverse renamings.now) expr.now) }
{
    rename_expr(alloc, &Renamings { list: renamings }, expr)
}

/// Expressions by renamings.
#[tactic(auto, using(crate::proofs::Moving::moved_are))]
pub fn moved_exprs(
    alloc: Global,
    renamings: &[Renaming],
    exprs: &[TExpr],
) -> Result<List<TExpr>, Memory>
    ensures { IfOk result (λ es. es ≡ all_moved (reverse renamings.now) exprs.now) }
{
    rename_exprs(alloc, &Renamings { list: renamings }, exprs)
}

/// A call by renamings.
pub fn moved_call(alloc: Global, renamings: &[Renaming], call: &AggUse) -> Result<AggUse, Memory>
    ensures { IfOk result (λ copy. copy ≡ call_moved (reverse renamings.now) call.now) }
{
    let args = moved_exprs(alloc, renamings, call.args.as_slice())?;
    Ok(with_args(call, args))
}

/// An effect by renamings.
pub fn moved_act(
    alloc: Global,
    renamings: &[Renaming],
    act: &EffectUse,
) -> Result<EffectUse, Memory>
    ensures { IfOk result (λ copy. copy ≡ act_moved (reverse renamings.now) act.now) }
{
    let args = moved_exprs(alloc, renamings, act.args.as_slice())?;
    Ok(EffectUse {
        action: act.action,
        clause: act.clause,
        args,
        place: act.place,
    })
}
