//! The items of an action.
ghost use Rattle.std.specs.Prelude.{◌≡◌, ◌<◌, ◌∷◌, [], flat_map, length, map, OnOk};
ghost use Rattle.sgl_values.specs.World.{row_at};
ghost use Rattle.sgl_typed.specs.Aggregate.{passes as passes_of, simple_value};
ghost use Rattle.sgl_typed.specs.Items.{clause_items, row_items, rows_items, writes as writes_of, written, faulty as faulty_item};
ghost use Rattle.sgl_evaluate.specs.Frame.{context_of, IsFrame};
ghost use Rattle.sgl_evaluate.specs.Rights.{AreRights, right_of};
ghost use Rattle.sgl_plain.specs.Collected.{Adds};

use crate::collected::Collected;
use sgl_evaluate::{Frame, Rights, amount_given, passes};
use sgl_typed::{TAction, TOn, TWrite};
use sgl_values::{Amount, Fault, Item, ItemFault, Memory};

/// The items of an action, whose arguments are the slots of the frame.
pub fn act_with(frame: &Frame, action: &TAction, out: &mut Collected) -> Result<(), Memory>
    requires { IsFrame frame.now }
    ensures { OnOk result (Adds out.old out.new (flat_map (clause_items (context_of frame.now)) action.now.ons)) }
{
    for clause in action.ons.as_slice() {
        if out.is_over() {
            return Ok(());
        }
        act_clause(frame, clause, out)?;
    }
    Ok(())
}

// The items of one `on` clause.
fn act_clause(frame: &Frame, clause: &TOn, out: &mut Collected) -> Result<(), Memory>
    requires { IsFrame frame.now }
    ensures { OnOk result (Adds out.old out.new (clause_items (context_of frame.now) clause.now)) }
{
    match Rights::read(frame, clause.tests.as_slice()) {
        Err(fault) => out.push(faulty(frame.tick.world.key(frame.unit), fault, 0)),
        Ok(rights) => act_on_rows(frame, clause, &rights, out),
    }
}

// The writes at each row that passes.
fn act_on_rows(
    frame: &Frame,
    clause: &TOn,
    rights: &Rights,
    out: &mut Collected,
) -> Result<(), Memory>
    requires frame { IsFrame frame.now }
    requires rights { AreRights (context_of frame.now) clause.now.tests rights.now }
    ensures { OnOk result (Adds out.old out.new (rows_items (context_of frame.now) clause.now (map (right_of (context_of frame.now)) clause.now.tests) 0 frame.now.tick.world.now.world.rows)) }
{
    for row in 0..frame.tick.world.len() {
        if out.is_over() {
            return Ok(());
        }
        act_on_row(frame, clause, rights, row, out)?;
    }
    Ok(())
}

// The writes at a row, where it passes.
#[tactic(auto, using(crate::proofs::Adding::Adds_nothing))]
fn act_on_row(
    frame: &Frame,
    clause: &TOn,
    rights: &Rights,
    row: u32,
    out: &mut Collected,
) -> Result<(), Memory>
    requires frame { IsFrame frame.now }
    requires rights { AreRights (context_of frame.now) clause.now.tests rights.now }
    requires row { row < length frame.now.tick.world.now.world.rows }
    ensures { OnOk result (Adds out.old out.new (row_items (context_of frame.now) clause.now (map (right_of (context_of frame.now)) clause.now.tests) row (row_at frame.now.tick.world.now.world row))) }
{
    if is_met(frame, clause, rights, row) {
        act_at(&frame.with_target(row), clause.writes.as_slice(), out)
    } else {
        Ok(())
    }
}

// Whether a row passes the tests of a clause.
fn is_met(frame: &Frame, clause: &TOn, rights: &Rights, row: u32) -> bool
    requires frame { IsFrame frame.now }
    requires rights { AreRights (context_of frame.now) clause.now.tests rights.now }
    requires row { row < length frame.now.tick.world.now.world.rows }
    ensures { result ≡ passes_of (context_of frame.now).unit clause.now.tests (map (right_of (context_of frame.now)) clause.now.tests) (row_at frame.now.tick.world.now.world row) }
{
    passes(frame, clause.tests.as_slice(), rights, row)
}

// The writes at the target of the frame.
fn act_at(frame: &Frame, writes: &[TWrite], out: &mut Collected) -> Result<(), Memory>
    requires { IsFrame frame.now }
    ensures { OnOk result (Adds out.old out.new (writes_of (context_of frame.now) frame.now.target writes.now)) }
{
    for write in writes {
        if out.is_over() {
            return Ok(());
        }
        out.push(write_of(frame, write))?;
    }
    Ok(())
}

// The item of a write.
fn write_of(frame: &Frame, write: &TWrite) -> Item
    requires { IsFrame frame.now }
    ensures { result ≡ written (context_of frame.now) frame.now.target write.now (simple_value (context_of frame.now) write.now.amount) }
{
    match amount_given(frame, write) {
        Ok(amount) => effect_of(frame, write.effect, amount),
        Err(fault) => fault_at(frame, fault),
    }
}

// An amount for the target.
fn effect_of(frame: &Frame, attr: u32, amount: Amount) -> Item
    ensures { result ≡ Item.Effect frame.now.target attr amount }
{
    Item::Effect {
        row: frame.target,
        attr,
        amount,
    }
}

// A fault in place of an amount for the target.
fn fault_at(frame: &Frame, fault: Fault) -> Item
    requires { IsFrame frame.now }
    ensures { result ≡ faulty_item (context_of frame.now).unit.key fault (context_of frame.now).target.key }
{
    faulty(
        frame.tick.world.key(frame.unit),
        fault,
        frame.tick.world.key(frame.target),
    )
}

/// A fault of the unit with this key.
pub fn faulty(key: u32, fault: Fault, target: u32) -> Item
    ensures { result ≡ faulty_item key fault target }
{
    Item::Faulty(ItemFault { key, fault, target })
}
