//! The items of statements.
ghost use Rattle.std.specs.Prelude.{◌≡◌, map, slice_get, IfOk, OnOk};
ghost use Rattle.sgl_typed.specs.Aggregate.{value};
ghost use Rattle.sgl_typed.specs.Items.{action_items, after, items, statement_items};
ghost use Rattle.sgl_evaluate.specs.Frame.{IsFrame};
ghost use Rattle.sgl_plain.specs.Acting.{acting_context};
ghost use Rattle.sgl_plain.specs.Collected.{Adds};
ghost use Rattle.sgl_plain.specs.Restored.{IsLogged};

use crate::action::{act_with, faulty};
use crate::collected::Collected;
use crate::slots::{Slots, restore, set_slot};
use sgl_evaluate::{Frame, evaluate};
use sgl_typed::{TExpr, TStmt};
use sgl_values::{Memory, Val};
use std::alloc::Global;

/// The items of a block, whose statements each have the slots behind the one before. At its end
/// the slots are as before.
#[cycle(statements)]
pub fn block(
    alloc: Global,
    acting: &Frame,
    slots: &mut Slots,
    statements: &[TStmt],
    out: &mut Collected,
) -> Result<(), Memory>
    requires { IsFrame acting.now }
    ensures items { OnOk result (Adds out.old out.new (items statements.now (acting_context acting.now slots.old.values.items))) }
    ensures values { OnOk result (slots.new.values.items ≡ slots.old.values.items) }
    ensures log { OnOk result (slots.new.log.items ≡ slots.old.log.items) }
{
    let mark = slots.log.len();
    for statement in statements {
        if out.is_over() {
            restore(slots, mark);
            return Ok(());
        }
        perform(alloc, acting, slots, statement, out)?;
    }
    restore(slots, mark);
    Ok(())
}

// The items of a statement, and the slots behind it.
#[cycle(statements)]
fn perform(
    alloc: Global,
    acting: &Frame,
    slots: &mut Slots,
    statement: &TStmt,
    out: &mut Collected,
) -> Result<(), Memory>
    requires { IsFrame acting.now }
    ensures items { OnOk result (Adds out.old out.new (statement_items statement.now (acting_context acting.now slots.old.values.items))) }
    ensures after { OnOk result (acting_context acting.now slots.new.values.items ≡ after statement.now (acting_context acting.now slots.old.values.items)) }
    ensures logged { OnOk result (IsLogged slots.old slots.new) }
{
    match statement {
        TStmt::Let { slot, value, .. } => {
            let value = value_for(acting, &slots.values, value);
            set_slot(slots, *slot, value)
        }
        TStmt::If { cond, yes, no, .. } => match value_for(acting, &slots.values, cond) {
            Val::F(fault) => out.push(faulty(acting.tick.world.key(acting.unit), fault, 0)),
            Val::B(true) => block(alloc, acting, slots, yes.as_slice(), out),
            Val::B(false) => block(alloc, acting, slots, no.as_slice(), out),
            Val::N(_) => block(alloc, acting, slots, no.as_slice(), out),
        },
        TStmt::Act { action, args, .. } => {
            let args = values_for(alloc, acting, &slots.values, args.as_slice())?;
            act(acting, &args, *action, out)
        }
        TStmt::Call { .. } => Ok(()),
    }
}

// The value of an expression for the unit that acts.
fn value_for(acting: &Frame, slots: &Vec<Val>, expr: &TExpr) -> Val
    requires { IsFrame acting.now }
    ensures { result ≡ value (acting_context acting.now slots.now.items) expr.now }
{
    let frame = acting.with_slots(slots.as_slice());
    evaluate(&frame, &frame, expr)
}

// The values of expressions for the unit that acts.
fn values_for(
    alloc: Global,
    acting: &Frame,
    slots: &Vec<Val>,
    exprs: &[TExpr],
) -> Result<Vec<Val>, Memory>
    requires { IsFrame acting.now }
    ensures { IfOk result (λ vs. vs.items ≡ map (value (acting_context acting.now slots.now.items)) exprs.now) }
{
    let mut values = Vec::new(alloc);
    for expr in exprs {
        values.push(value_for(acting, slots, expr))?;
    }
    Ok(values)
}

// The items of the action with this number.
fn act(acting: &Frame, args: &Vec<Val>, action: u32, out: &mut Collected) -> Result<(), Memory>
    requires { IsFrame acting.now }
    ensures { OnOk result (Adds out.old out.new (action_items (acting_context acting.now args.now.items) (slice_get acting.now.tick.script.now.actions action))) }
{
    match acting.tick.script.actions.get(action as usize) {
        None => Ok(()),
        Some(action) => act_with(&acting.with_slots(args.as_slice()), action, out),
    }
}
