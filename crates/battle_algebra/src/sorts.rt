//! Tests by their sorts: equal, unequal and range tests, and circles.
ghost use Rattle.std.specs.Prelude.{◌≡◌, ◌≢◌, ◌==◌, ◌↔◌, ◌∷◌, [], IfNone, IfSome, IsTrue};
ghost use Rattle.sgl_typed.specs.declared.script.Attr.TheVariants.{Key};
ghost use Rattle.sgl_typed.specs.declared.script.TExpr.{TExpr as TExprOf};
ghost use Rattle.sgl_typed.specs.declared.script.TExpr.TheVariants.{Unit as OfUnit};
ghost use Rattle.sgl_typed.specs.declared.script.TTest.TheVariants.{Compare};
ghost use Rattle.sgl_values.specs.declared.operator.CmpOp.TheVariants.{Eq};
ghost use Rattle.battle_algebra.specs.Ways as ways;

use sgl_typed::{Attr, TExpr, TTest};
use sgl_values::CmpOp;

/// Whether a test is that an attribute equals a value.
pub fn is_equal_test(test: &TTest) -> bool
    ensures { result ≡ ways.is_equal_test test.now }
{
    matches!(test, TTest::Compare { op: CmpOp::Eq, .. })
}

/// Whether it is that an attribute differs from a value.
pub fn is_unequal_test(test: &TTest) -> bool
    ensures { result ≡ ways.is_unequal_test test.now }
{
    matches!(test, TTest::Compare { op: CmpOp::Ne, .. })
}

/// Whether it compares an attribute by `<`, `<=`, `>` or `>=`.
pub fn is_range_test(test: &TTest) -> bool
    ensures { result ≡ ways.is_range_test test.now }
{
    !(is_equal_test(test) || is_unequal_test(test) || is_circle(test))
}

/// Whether it is a circle.
pub fn is_circle(test: &TTest) -> bool
    ensures { result ≡ ways.is_circle test.now }
{
    matches!(test, TTest::Within { .. })
}

/// The attribute that a test compares, and the first one of a circle.
pub fn attr_of(test: &TTest) -> Attr
    ensures { result ≡ ways.attr_of test.now }
{
    match test {
        TTest::Compare { attr, .. } => *attr,
        TTest::Within { x, .. } => *x,
    }
}

fn is_key(attr: Attr) -> bool
    ensures { result ≡ (ways.number_of attr == 0) }
{
    matches!(attr, Attr::Key)
}

/// Whether some test is that the key equals a value.
pub fn tests_key(tests: &[TTest]) -> bool
    ensures { result ≡ ways.tests_key tests.now }
{
    tests
        .iter()
        .any(|test| is_equal_test(test) && is_key(attr_of(test)))
}

/// The right side of the only test, where that is that the key equals it.
pub fn sole_key(tests: &[TTest]) -> Option<&TExpr>
    ensures key { IfSome result (λ right. tests.now ≡ Compare Key Eq right.now ∷ []) }
    ensures other { IfNone result ((right : TExprOf) → tests.now ≢ Compare Key Eq right ∷ []) }
{
    match tests {
        [
            TTest::Compare {
                attr: Attr::Key,
                op: CmpOp::Eq,
                right,
            },
        ] => Some(right),
        _ => None,
    }
}

/// Whether an expression is the key of the acting unit, and no more.
pub fn is_own_key(expr: &TExpr) -> bool
    ensures { IsTrue result ↔ expr.now ≡ OfUnit Key }
{
    matches!(expr, TExpr::Unit(Attr::Key))
}
