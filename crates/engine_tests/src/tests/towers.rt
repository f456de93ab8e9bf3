//! Scripts in which routines call one another, for the tests. They stand on the heap, since a
//! function that gives up a whole script is long to prove.

ghost use Rattle.std.specs.Prelude.{◌≡◌, ◌∷◌, [], pos, IfOk};
ghost use Rattle.sgl_typed.specs.declared.script.TExpr.TheVariants.{Number};
ghost use Rattle.sgl_typed.specs.declared.script.TStmt.TheVariants.{Call, Let};
ghost use Rattle.engine_tests.specs.Towers.{calls_of, corner, ladder, last_call, tower};

use crate::tests::parts::{number, script_of};
use sgl_typed::{TExpr, TRoutine, TScript, TStmt};
use sgl_values::{Boxed, List, Memory};
use std::alloc::Global;
use test_cases::{at, one};

// The statement `perform R(u);`.
fn call(alloc: Global, routine: u32) -> TStmt
    ensures { result ≡ Call routine [] [] }
{
    TStmt::Call {
        routine,
        args: List::new(alloc),
        places: List::new(alloc),
    }
}

// So many of them.
fn calls(alloc: Global, routine: u32, times: u32) -> Result<List<TStmt>, Memory>
    ensures { IfOk result (λ list. list ≡ calls_of routine times) }
{
    let mut list = List::new(alloc);
    for _ in 0..times {
        list.push(call(alloc, routine))?;
    }
    Ok(list)
}

// A routine of these statements, and above it so many levels of ten calls of the one before.
fn towering(alloc: Global, first: List<TStmt>, levels: u32) -> Result<List<TRoutine>, Memory>
    ensures { IfOk result (λ routines. routines ≡ tower first 10 levels) }
{
    let mut routines = one(
        alloc,
        TRoutine {
            params: List::new(alloc),
            body: first,
        },
    )?;
    for level in 0..levels {
        routines.push(TRoutine {
            params: List::new(alloc),
            body: calls(alloc, level, 10)?,
        })?;
    }
    Ok(routines)
}

// The statement `let a = 1;`.
fn a_let(alloc: Global) -> Result<List<TStmt>, Memory>
    ensures { IfOk result (λ list. list ≡ Let 0 (Number (pos 1)) corner ∷ []) }
{
    one(
        alloc,
        TStmt::Let {
            slot: 0,
            value: number(1),
            place: at(1),
        },
    )
}

/// Ten calls of the third level above `let a = 1;`.
pub fn full(alloc: Global) -> Result<Boxed<TScript>, Memory> {
    let routines = towering(alloc, a_let(alloc)?, 3)?;
    Boxed::new(alloc, script_of(alloc, routines, calls(alloc, 3, 10)?, 1))
}

/// Nineteen levels of ten calls, and one call of the last.
pub fn towering_script(alloc: Global) -> Result<Boxed<TScript>, Memory> {
    let routines = towering(alloc, a_let(alloc)?, 19)?;
    Boxed::new(alloc, script_of(alloc, routines, calls(alloc, 19, 1)?, 1))
}

/// The same above a routine without statements.
pub fn hollow_script(alloc: Global) -> Result<Boxed<TScript>, Memory> {
    let routines = towering(alloc, List::new(alloc), 19)?;
    Boxed::new(alloc, script_of(alloc, routines, calls(alloc, 19, 1)?, 0))
}

// A call of the last of so many routines.
fn last(alloc: Global, routines: u32) -> Result<List<TStmt>, Memory>
    ensures { IfOk result (λ list. list ≡ last_call routines) }
{
    if routines == 0 {
        Ok(List::new(alloc))
    } else {
        one(alloc, call(alloc, routines - 1))
    }
}

// So many routines, each with a block in which it calls the one before.
fn climbing(alloc: Global, levels: u32) -> Result<List<TRoutine>, Memory>
    ensures { IfOk result (λ routines. routines ≡ ladder levels) }
{
    let mut routines = List::new(alloc);
    for level in 0..levels {
        let block = TStmt::If {
            cond: TExpr::Truth(true),
            place: at(1),
            yes: last(alloc, level)?,
            no: List::new(alloc),
        };
        routines.push(TRoutine {
            params: List::new(alloc),
            body: one(alloc, block)?,
        })?;
    }
    Ok(routines)
}

/// A call of the last of 256 routines with a block each.
pub fn deep(alloc: Global) -> Result<Boxed<TScript>, Memory> {
    let routines = climbing(alloc, 256)?;
    Boxed::new(alloc, script_of(alloc, routines, last(alloc, 256)?, 0))
}
