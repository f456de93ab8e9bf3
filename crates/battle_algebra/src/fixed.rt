//! Right sides that the acting row alone decides.
ghost use Rattle.std.specs.Prelude.{◌≡◌, false, slice_get};
ghost use Rattle.sgl_typed.specs.Aggregate.{right_side as side_of};
ghost use Rattle.battle_algebra.specs.Ways as ways;

use sgl_typed::{TExpr, TTest};

// Whether an argument is built of numbers, attributes of the unit and random numbers.
#[tactic(auto, using(crate::proofs::RightSides::fixed_equations))]
fn is_fixed(expr: &TExpr) -> bool
    ensures { result ≡ ways.fixed_with expr.now (λ i. false) }
{
    match expr {
        TExpr::Number(_) => true,
        TExpr::Truth(_) => false,
        TExpr::Slot(_) => false,
        TExpr::Unit(_) => true,
        TExpr::Target(_) => false,
        TExpr::Combined(_) => false,
        TExpr::Random(_) => true,
        TExpr::Agg(_) => false,
        TExpr::Neg(inner) => is_fixed(inner.get()),
        TExpr::Not(_) => false,
        TExpr::Binary { left, right, .. } => is_fixed(left.get()) && is_fixed(right.get()),
    }
}

fn is_arg_fixed(args: &[TExpr], slot: u32) -> bool
    ensures { result ≡ ways.arg_fixed (slice_get args.now slot) }
{
    match args.get(slot as usize) {
        None => false,
        Some(arg) => is_fixed(arg),
    }
}

// Whether a right side is, with the arguments put in.
#[tactic(auto, using(crate::proofs::RightSides::fixed_equations))]
fn is_fixed_with(expr: &TExpr, args: &[TExpr]) -> bool
    ensures { result ≡ ways.fixed_with expr.now (λ i. ways.arg_fixed (slice_get args.now i)) }
{
    match expr {
        TExpr::Number(_) => true,
        TExpr::Truth(_) => false,
        TExpr::Slot(slot) => is_arg_fixed(args, *slot),
        TExpr::Unit(_) => true,
        TExpr::Target(_) => false,
        TExpr::Combined(_) => false,
        TExpr::Random(_) => true,
        TExpr::Agg(_) => false,
        TExpr::Neg(inner) => is_fixed_with(inner.get(), args),
        TExpr::Not(_) => false,
        TExpr::Binary { left, right, .. } => {
            is_fixed_with(left.get(), args) && is_fixed_with(right.get(), args)
        }
    }
}

fn right_side(test: &TTest) -> &TExpr
    ensures { result.now ≡ side_of test.now }
{
    match test {
        TTest::Compare { right, .. } => right,
        TTest::Within { radius, .. } => radius,
    }
}

/// Whether each right side is built of numbers, attributes of the unit and random numbers, with the arguments put in.
pub fn all_fixed(tests: &[TTest], args: &[TExpr]) -> bool
    ensures { result ≡ ways.all_fixed tests.now args.now }
{
    tests
        .iter()
        .all(|test| is_fixed_with(right_side(test), args))
}
