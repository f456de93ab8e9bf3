//! The attributes of range tests.
ghost use Rattle.std.specs.Prelude.{◌≡◌};
ghost use Rattle.battle_algebra.specs.Ways as ways;

use crate::sorts::{attr_of, is_range_test};
use sgl_typed::{Attr, TTest};

fn same_attr(a: Attr, b: Attr) -> bool
    ensures { result ≡ ways.same_attr a b }
{
    match a {
        Attr::Key => match b {
            Attr::Key => true,
            Attr::Const(_) => false,
        },
        Attr::Const(i) => match b {
            Attr::Key => false,
            Attr::Const(j) => i == j,
        },
    }
}

/// Whether a test is a range test of the attribute.
pub fn is_along(axis: Option<Attr>, test: &TTest) -> bool
    ensures { result ≡ ways.is_along axis test.now }
{
    match axis {
        None => false,
        Some(attr) => is_range_test(test) && same_attr(attr_of(test), attr),
    }
}

/// The attribute of the first range test.
pub fn first_range(tests: &[TTest]) -> Option<Attr>
    ensures { result ≡ ways.first_range tests.now }
{
    for test in tests {
        if is_range_test(test) {
            return Some(attr_of(test));
        }
    }
    None
}

/// The attribute of the first range test of another attribute.
pub fn next_range(x: Option<Attr>, tests: &[TTest]) -> Option<Attr>
    ensures { result ≡ ways.next_range x tests.now }
{
    for test in tests {
        if is_range_test(test) && !is_along(x, test) {
            return Some(attr_of(test));
        }
    }
    None
}

/// Whether each range test is of one of two attributes.
pub fn covered(x: Option<Attr>, y: Option<Attr>, tests: &[TTest]) -> bool
    ensures { result ≡ ways.covered x y tests.now }
{
    tests.iter().all(|test| !is_range_test(test) || (is_along(x, test) || is_along(y, test)))
}
