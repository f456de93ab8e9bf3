//! Tests of routines that are written out.

ghost use Rattle.std.specs.Prelude.{◌≡◌, ◌∷◌, [], pos, IfOk};
ghost use Rattle.sgl_typed.specs.declared.script.TExpr.TheVariants.{Number};
ghost use Rattle.sgl_typed.specs.declared.script.TStmt.TheVariants.{Call, Let};
ghost use Rattle.engine_tests.specs.Towers.{calls_twice, copies};

use crate::tests::parts::{number, script_of};
use crate::tests::towers::{deep, full, hollow_script, towering_script};
use sgl_expand::{ExpandFault, expand, written_scripts_keep_items};
use sgl_typed::{TExpr, TRoutine, TScript, TStmt};
use sgl_values::{Boxed, List, Memory};
use std::alloc::Global;
use std::fmt::Debug;
use std::test::Fail;
use test_cases::{at, one};

// Whether two values print the same.
fn print_same<T: Debug>(alloc: Global, a: &T, b: &T) -> Result<bool, Fail> {
    let left = format!(in alloc; "{a:?}")?;
    let right = format!(in alloc; "{b:?}")?;
    Ok(left.as_str() == right.as_str())
}

// The statement `let` of this slot, at a column of the first line.
fn set(slot: u32, value: TExpr, col: u32) -> TStmt
    ensures { result ≡ Let slot value (record { line = 1; col = col }) }
{
    TStmt::Let {
        slot,
        value,
        place: at(col),
    }
}

// The statement `perform R(u, value);`, with its argument at a column of the first line.
fn call_with(alloc: Global, value: u32, col: u32) -> Result<TStmt, Memory>
    ensures { IfOk result (λ s. s ≡ Call 0 (Number (pos value) ∷ []) (record { line = 1; col = col } ∷ [])) }
{
    Ok(TStmt::Call {
        routine: 0,
        args: one(alloc, number(value))?,
        places: one(alloc, at(col))?,
    })
}

// The routine `routine R(u, d) { let e = d; }`.
fn copying(alloc: Global) -> Result<List<TRoutine>, Memory>
    ensures { IfOk result (λ routines. routines ≡ copies) }
{
    let params = one(alloc, 0u32)?;
    let body = one(alloc, set(1, TExpr::Slot(0), 3))?;
    one(alloc, TRoutine { params, body })
}

// The statements `perform R(u, 5); perform R(u, 6);`.
fn calling(alloc: Global) -> Result<List<TStmt>, Memory>
    ensures { IfOk result (λ main. main ≡ calls_twice) }
{
    let mut main = one(alloc, call_with(alloc, 5, 7)?)?;
    main.push(call_with(alloc, 6, 9)?)?;
    Ok(main)
}

// The script of this routine and these statements in `main(u)`, with its own columns.
fn two_calls(alloc: Global) -> Result<TScript, Memory> {
    let routines = copying(alloc)?;
    let main = calling(alloc)?;
    Ok(script_of(alloc, routines, main, 2))
}

// The same written out.
fn two_written(alloc: Global) -> Result<Boxed<TScript>, Memory> {
    let script = Boxed::new(alloc, two_calls(alloc)?)?;
    match expand(alloc, script.get()) {
        Ok(out) => Boxed::new(alloc, out),
        Err(_) => Err(Memory),
    }
}

// For each call a slot that is set to its argument, and one that is set to that slot.
fn two_pairs(alloc: Global) -> Result<List<TStmt>, Memory> {
    let mut main = List::new(alloc);
    for (slot, copy, value, col) in [(0, 1, 5, 7), (2, 3, 6, 9)] {
        main.push(set(slot, number(value), col))?;
        main.push(set(copy, TExpr::Slot(slot), 3))?;
    }
    Ok(main)
}

#[test]
fn each_call_has_slots_of_its_own(rt: HostRuntime) -> Result<(), Fail> {
    let alloc = rt.alloc();
    let out = two_written(alloc)?;
    let main = two_pairs(alloc)?;
    assert!(rt; print_same(alloc, &out.get().main, &main)?);
    Ok(())
}

#[test]
fn slots_are_counted_and_no_routine_is_left(rt: HostRuntime) -> Result<(), Fail> {
    let written = two_written(rt.alloc())?;
    let out = written.get();
    assert_eq!(rt; (out.slots, out.routines.len()), (4, 0));
    written_scripts_keep_items();
    Ok(())
}

// The statements and the slots of a script that is written out.
fn written(alloc: Global, script: Boxed<TScript>) -> Result<(usize, u32), ExpandFault> {
    let out = expand(alloc, script.get())?;
    Ok((out.main.len(), out.slots))
}

#[test]
fn towers_are_written_out(rt: HostRuntime) -> Result<(), Fail> {
    let alloc = rt.alloc();
    let full = written(alloc, full(alloc)?);
    let hollow = written(alloc, hollow_script(alloc)?);
    assert_eq!(rt; [full, hollow], [Ok((10_000, 10_000)), Ok((0, 0))]);
    Ok(())
}

#[test]
fn towers_that_are_too_large_or_too_deep_are_refused(rt: HostRuntime) -> Result<(), Fail> {
    let alloc = rt.alloc();
    let large = written(alloc, towering_script(alloc)?);
    assert_eq!(rt; large, Err(ExpandFault::TooLarge { nodes: u64::MAX }));
    let nested = written(alloc, deep(alloc)?);
    assert_eq!(rt; nested, Err(ExpandFault::TooNested { depth: 257 }));
    Ok(())
}
