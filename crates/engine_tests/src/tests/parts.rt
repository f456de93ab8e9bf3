//! Parts of scripts, for the tests.

ghost use Rattle.std.specs.Prelude.{◌≡◌, [], pos, true, None, IfOk};
ghost use Rattle.sgl_typed.specs.declared.script.TExpr.TheVariants.{Binary, Number};
ghost use Rattle.sgl_typed.specs.WellFormed.{is_well_formed};
ghost use Rattle.engine_tests.specs.Samples.{no_attributes};

use sgl_typed::{Schema, TExpr, TRoutine, TScript, TStmt};
use sgl_values::{ArithFault, BinOp, Boxed, Fault, List, Memory, Num};
use std::alloc::Global;
use test_cases::at;

/// The number of this value, as an expression.
pub fn number(value: u32) -> TExpr
    ensures { result ≡ Number (pos value) }
{
    TExpr::Number(Num::whole(value))
}

/// An operation on two parts, with its operator in this column of the first line.
pub fn binary(
    alloc: Global,
    op: BinOp,
    left: TExpr,
    right: TExpr,
    col: u32,
) -> Result<TExpr, Memory>
    ensures { IfOk result (λ e. e ≡ Binary op left right (record { line = 1; col = col })) }
{
    Ok(TExpr::Binary {
        op,
        left: Boxed::new(alloc, left)?,
        right: Boxed::new(alloc, right)?,
        place: at(col),
    })
}

/// A division by zero at a column.
pub fn zero_divisor(col: u32) -> Fault {
    Fault {
        kind: ArithFault::ZeroDivisor,
        place: at(col),
    }
}

fn without_attributes(alloc: Global) -> Schema
    ensures { result ≡ no_attributes }
{
    Schema {
        consts: List::new(alloc),
        effects: List::new(alloc),
    }
}

/// A script of routines and `main` alone.
pub fn script_of(alloc: Global, routines: List<TRoutine>, main: List<TStmt>, slots: u32) -> TScript
    requires { is_well_formed no_attributes [] [] routines main slots [] None None ≡ true }
    ensures consts { result.schema.consts ≡ [] }
    ensures routines { result.routines ≡ routines }
    ensures main { result.main ≡ main }
    ensures slots { result.slots ≡ slots }
{
    TScript {
        schema: without_attributes(alloc),
        aggs: List::new(alloc),
        actions: List::new(alloc),
        routines,
        main,
        slots,
        rules: List::new(alloc),
        spawn: None,
        removal: None,
    }
}
