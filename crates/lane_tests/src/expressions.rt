//! The expressions that lanes are compared on.

use crate::sample::PLACE;
use sgl_typed::{AggUse, Attr, TExpr};
use sgl_values::{BinOp, Boxed, CmpOp, List, Memory, Num};
use std::alloc::Global;
use test_cases::small;

/// An operation on two parts.
pub fn binary(alloc: Global, op: BinOp, left: TExpr, right: TExpr) -> Result<TExpr, Memory> {
    Ok(TExpr::Binary {
        op,
        left: Boxed::new(alloc, left)?,
        right: Boxed::new(alloc, right)?,
        place: PLACE,
    })
}

/// A number that is written.
pub fn number(value: i32) -> TExpr {
    TExpr::Number(small(value))
}

/// The leaves of expressions: nine numbers, and then truths.
pub fn leaf(number: u32) -> TExpr {
    match number {
        0 => TExpr::Number(Num::whole(12).negated()),
        1 => TExpr::Slot(0),
        2 => TExpr::Slot(3),
        3 => TExpr::Unit(Attr::Key),
        4 => TExpr::Unit(Attr::Const(0)),
        5 => TExpr::Target(Attr::Const(0)),
        6 => TExpr::Combined(0),
        7 => TExpr::Combined(1),
        8 => TExpr::Random(3),
        9 => TExpr::Truth(true),
        10 => TExpr::Truth(false),
        _ => TExpr::Slot(1),
    }
}

// The first attribute less a thousand.
fn lowered(alloc: Global) -> Result<TExpr, Memory> {
    binary(
        alloc,
        BinOp::Sub,
        TExpr::Unit(Attr::Const(0)),
        number(1_000),
    )
}

// The second attribute and one more, which is never 0.
fn raised(alloc: Global) -> Result<TExpr, Memory> {
    binary(alloc, BinOp::Add, TExpr::Unit(Attr::Const(1)), number(1))
}

// The one beside the other.
fn arithmetic(alloc: Global, op: BinOp) -> Result<TExpr, Memory> {
    let left = lowered(alloc)?;
    let right = raised(alloc)?;
    binary(alloc, op, left, right)
}

/// So many times the first attribute less a thousand: numbers below 0 and above it.
pub fn spread(alloc: Global, factor: u32) -> Result<TExpr, Memory> {
    let left = lowered(alloc)?;
    binary(alloc, BinOp::Mul, left, TExpr::Number(Num::whole(factor)))
}

/// Differences, each on the right of the one before it, so many.
pub fn nested(alloc: Global, depth: u32) -> Result<TExpr, Memory> {
    let mut expr = TExpr::Unit(Attr::Const(1));
    for _ in 0..depth {
        expr = binary(alloc, BinOp::Sub, TExpr::Unit(Attr::Const(0)), expr)?;
    }
    Ok(expr)
}

// The second attribute beside 3, which is no number that is written.
fn comparison(alloc: Global, op: CmpOp) -> Result<TExpr, Memory> {
    let three = negative(alloc, number(-3))?;
    binary(alloc, BinOp::Cmp(op), TExpr::Unit(Attr::Const(1)), three)
}

/// The greatest number on the left of the second attribute.
pub fn on_the_greatest(alloc: Global, op: BinOp) -> Result<TExpr, Memory> {
    let greatest = Num::new(1_000_000_000_000).unwrap_or(Num::zero());
    binary(
        alloc,
        op,
        TExpr::Number(greatest),
        TExpr::Unit(Attr::Const(1)),
    )
}

fn negative(alloc: Global, inner: TExpr) -> Result<TExpr, Memory> {
    Ok(TExpr::Neg(Boxed::new(alloc, inner)?))
}

fn contrary(alloc: Global, inner: TExpr) -> Result<TExpr, Memory> {
    Ok(TExpr::Not(Boxed::new(alloc, inner)?))
}

// The second slot, which is a truth, beside a comparison.
fn joined(alloc: Global, op: BinOp) -> Result<TExpr, Memory> {
    let below = comparison(alloc, CmpOp::Lt)?;
    binary(alloc, op, TExpr::Slot(1), below)
}

const ARITHMETIC: [BinOp; 5] = [BinOp::Add, BinOp::Sub, BinOp::Mul, BinOp::Div, BinOp::Rem];

const COMPARISONS: [CmpOp; 6] = [
    CmpOp::Eq,
    CmpOp::Ne,
    CmpOp::Lt,
    CmpOp::Le,
    CmpOp::Gt,
    CmpOp::Ge,
];

/// Each operation on parts of its sort: the first six make numbers, the others truths.
pub fn operation(alloc: Global, number: u32) -> Result<TExpr, Memory> {
    match number {
        0..=4 => arithmetic(alloc, ARITHMETIC[number as usize]),
        5 => negative(alloc, TExpr::Unit(Attr::Key)),
        6..=11 => comparison(alloc, COMPARISONS[number as usize - 6]),
        12 => joined(alloc, BinOp::And),
        13 => joined(alloc, BinOp::Or),
        _ => contrary(alloc, TExpr::Slot(1)),
    }
}

/// Expressions of no sort.
pub fn unsorted(alloc: Global, number: u32) -> Result<TExpr, Memory> {
    match number {
        0 => Ok(TExpr::Agg(AggUse {
            agg: 0,
            args: List::new(alloc),
            place: PLACE,
        })),
        1 => negative(alloc, TExpr::Truth(true)),
        2 => contrary(alloc, TExpr::Random(1)),
        3 => binary(alloc, BinOp::Add, TExpr::Slot(0), TExpr::Slot(1)),
        4 => binary(alloc, BinOp::Sub, TExpr::Slot(1), TExpr::Slot(1)),
        _ => binary(alloc, BinOp::And, TExpr::Slot(0), TExpr::Slot(0)),
    }
}
