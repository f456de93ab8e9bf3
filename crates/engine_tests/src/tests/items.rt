//! Tests of the items of a tick.

ghost use Rattle.std.specs.Prelude.{◌≡◌, IfOk, length, true};
ghost use Rattle.sgl_typed.specs.WrittenOut.{is_written_out};
ghost use Rattle.engine_tests.specs.Samples.{branches, divided_by_zero};

use crate::tests::parts::{binary, number, script_of, zero_divisor};
use env_table::{World, WorldBuilder};
use sgl_plain::{PlainTick, plain_items};
use sgl_typed::{TExpr, TScript, TStmt};
use sgl_values::{BinOp, CmpOp, Item, ItemFault, List, Memory};
use std::alloc::Global;
use std::test::Fail;
use test_cases::{at, one};

// `5 / 0 > 0`
fn divided(alloc: Global) -> Result<TExpr, Memory>
    ensures { IfOk result (λ e. e ≡ divided_by_zero) }
{
    let quotient = binary(alloc, BinOp::Div, number(5), number(0), 17)?;
    binary(alloc, BinOp::Cmp(CmpOp::Gt), quotient, number(0), 21)
}

// `if 5 / 0 > 0 { }`
fn branching(alloc: Global) -> Result<List<TStmt>, Memory>
    ensures { IfOk result (λ main. main ≡ branches) }
{
    let branch = TStmt::If {
        cond: divided(alloc)?,
        place: at(13),
        yes: List::new(alloc),
        no: List::new(alloc),
    };
    one(alloc, branch)
}

// A script of this `main`.
fn faulty_script(alloc: Global) -> Result<TScript, Memory>
    ensures written_out { IfOk result (λ script. is_written_out script ≡ true) }
    ensures consts { IfOk result (λ script. length script.schema.consts ≡ 0) }
{
    let main = branching(alloc)?;
    Ok(script_of(alloc, List::new(alloc), main, 0))
}

// A world of two units without attributes.
fn two(alloc: Global) -> Result<World, Memory>
    ensures { IfOk result (λ world. world.width ≡ 0) }
{
    let mut builder = WorldBuilder::with_room(alloc, 0, 0, 2)?;
    match builder.push(3, &[]) {
        Ok(()) => {}
        Err(_) => return Err(Memory),
    }
    match builder.push(8, &[]) {
        Ok(()) => {}
        Err(_) => return Err(Memory),
    }
    Ok(builder.finish(8))
}

// The items of the two units, of which so many are within the limit.
fn ticked(alloc: Global, limit: u64) -> Result<PlainTick, Memory> {
    let world = two(alloc)?;
    let script = faulty_script(alloc)?;
    plain_items(alloc, &script, &world, 0, limit)
}

// The fault of the unit with this key.
fn faulty(key: u32) -> Item {
    Item::Faulty(ItemFault {
        key,
        fault: zero_divisor(17),
        target: 0,
    })
}

#[test]
fn units_tell_their_faults_in_rising_key(rt: HostRuntime) -> Result<(), Fail> {
    let tick = ticked(rt.alloc(), 2)?;
    assert!(rt; !tick.over);
    assert_eq!(rt; tick.items.as_slice(), [faulty(3), faulty(8)].as_slice());
    Ok(())
}

#[test]
fn a_tick_is_over_behind_the_last_item_in_its_limit(rt: HostRuntime) -> Result<(), Fail> {
    let tick = ticked(rt.alloc(), 1)?;
    assert!(rt; tick.over);
    assert_eq!(rt; tick.items.as_slice(), [faulty(3)].as_slice());
    Ok(())
}
