//! Which tests of a clause the strips of sorted groups leave to be asked of each row.
ghost use Rattle.std.specs.Prelude.{◌≡◌, ◌<◌, length, true};
ghost use Rattle.std.specs.List.{list_all, list_any};
ghost use Rattle.battle_algebra.specs.Ways.{is_unequal_test as is_unequal_of, x_of, y_of};
ghost use Rattle.test_boxes.specs.Readings.{groups_by as groups_by_test};
ghost use Rattle.test_boxes.specs.declared.reading.Reading.TheVariants.{Away};
ghost use Rattle.index_set.specs.Left.{how_left, is_free as is_free_test, is_others as is_others_left, is_told, IsLeft, IsOthers, IsSole};

use battle_algebra::{attr_of, first_range, is_along, is_circle, is_unequal_test, next_range};
use sgl_typed::{Attr, TTest};
use test_boxes::{Reading, groups_by};

/// The tests that are asked of each row of a strip: none, where the strip stands for all, the one that it does not stand
/// for, by its number, none, where the strips of all groups but one by the value of an unequal test do, or all.
#[derive(Clone, Copy, Debug)]
pub(crate) enum Left {
    Nothing,
    One(usize),
    Others,
    All,
}

impl Left {
    /// Those that strips of two attributes leave.
    pub(crate) fn of(axis: Option<Attr>, across: Option<Attr>, tests: &[TTest]) -> Left
        ensures { IsLeft result axis across tests.now }
    {
        if are_told(axis, across, tests) {
            return Left::Nothing;
        }
        for number in 0..tests.len() {
            if is_sole(axis, across, tests, number) {
                return Left::One(number);
            }
        }
        Left::All
    }

    /// How an unequal test is read for the groups whose strips leave these tests.
    pub(crate) fn reading(self) -> Reading
        ensures { result ≡ how_left self }
    {
        if self.is_others() {
            Reading::Alike
        } else {
            Reading::Away
        }
    }

    /// Whether strips of all groups but one stand for all tests.
    pub(crate) fn is_others(self) -> bool
        ensures { result ≡ is_others_left self }
    {
        matches!(self, Left::Others)
    }
}

/// Whether strips of the groups by the value of an unequal test stand for all tests, but those of the group with its right
/// side: no test is equal, and strips of the range tests stand for all others.
pub(crate) fn stand_others(tests: &[TTest]) -> bool
    ensures { result ≡ true → IsOthers (x_of tests.now) (y_of tests.now) tests.now }
{
    let axis = first_range(tests);
    let across = next_range(axis, tests);
    match Left::of(axis, across, tests) {
        Left::One(number) => can_be_few(&tests[number]) && !has_equal(tests),
        _ => false,
    }
}

// Whether a test is unequal and few groups may have its values: those of the key are all different.
fn can_be_few(test: &TTest) -> bool
    ensures { result ≡ true → is_unequal_of test.now ≡ true }
{
    is_unequal_test(test) && attr_of(test) != Attr::Key
}

/// Whether there is an equal test.
pub(crate) fn has_equal(tests: &[TTest]) -> bool
    ensures { result ≡ list_any (groups_by_test Away) tests.now }
{
    tests.iter().any(|test| groups_by(Reading::Away, test))
}

// Whether strips of two attributes stand for all tests.
fn are_told(axis: Option<Attr>, across: Option<Attr>, tests: &[TTest]) -> bool
    ensures { result ≡ list_all (is_told axis across) tests.now }
{
    tests.iter().all(|test| {
        groups_by(Reading::Away, test) || (is_along(axis, test) || is_along(across, test))
    })
}

// Whether strips say nothing of a test.
fn is_free(test: &TTest) -> bool
    ensures { result ≡ is_free_test test.now }
{
    is_unequal_test(test) || is_circle(test)
}

// Whether strips stand for all tests but the one with this number, of which they say nothing.
fn is_sole(axis: Option<Attr>, across: Option<Attr>, tests: &[TTest], number: usize) -> bool
    requires { number < length tests.now }
    ensures { result ≡ true → IsSole axis across tests.now number }
{
    is_free(&tests[number])
        && are_told(axis, across, &tests[..number])
        && are_told(axis, across, &tests[number + 1..])
}
