//! How many tests of each sort there are.
ghost use Rattle.std.specs.Prelude.{◌≡◌, length, filter};
ghost use Rattle.std.specs.List.{list_any};
ghost use Rattle.battle_algebra.specs.Sorts.{is_of_sort};
ghost use Rattle.battle_algebra.specs.Ways as ways;

use crate::axes::{covered, first_range, next_range};
use crate::sorts::{is_circle, is_equal_test, is_range_test, is_unequal_test};
use sgl_typed::TTest;

/// The sorts of tests that are counted.
#[derive(Clone, Copy, Debug)]
pub enum Sort {
    Equal,
    Unequal,
    Circle,
}

fn is_of(sort: Sort, test: &TTest) -> bool
    ensures { result ≡ is_of_sort sort test.now }
{
    match sort {
        Sort::Equal => is_equal_test(test),
        Sort::Unequal => is_unequal_test(test),
        Sort::Circle => is_circle(test),
    }
}

fn count_of(sort: Sort, tests: &[TTest]) -> usize
    ensures { result ≡ length (filter (is_of_sort sort) tests.now) }
{
    let mut count = 0;
    for test in tests {
        if is_of(sort, test) {
            count += 1;
        }
    }
    count
}

fn has_range(tests: &[TTest]) -> bool
    ensures { result ≡ list_any (λ test. ways.is_range_test test) tests.now }
{
    tests.iter().any(|test| is_range_test(test))
}

fn has_circle(tests: &[TTest]) -> bool
    ensures { result ≡ list_any (λ test. ways.is_circle test) tests.now }
{
    tests.iter().any(|test| is_circle(test))
}

/// Whether there are at most three equal tests and at most one unequal test.
pub fn few_groups(tests: &[TTest]) -> bool
    ensures { result ≡ ways.few_groups tests.now }
{
    count_of(Sort::Equal, tests) <= 3 && count_of(Sort::Unequal, tests) <= 1
}

/// Whether range tests are on at most two attributes, and there is no circle.
pub fn is_boxed(tests: &[TTest]) -> bool
    ensures { result ≡ ways.is_boxed tests.now }
{
    let x = first_range(tests);
    covered(x, next_range(x, tests), tests) && !has_circle(tests)
}

/// Whether there is exactly one circle, and no range test.
pub fn is_round(tests: &[TTest]) -> bool
    ensures { result ≡ ways.is_round tests.now }
{
    count_of(Sort::Circle, tests) == 1 && !has_range(tests)
}

/// Whether there is neither a range test nor a circle.
pub fn is_unbounded(tests: &[TTest]) -> bool
    ensures { result ≡ ways.is_unbounded tests.now }
{
    !has_range(tests) && !has_circle(tests)
}
