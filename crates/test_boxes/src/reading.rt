//! How an unequal test is read, and the attributes by which rows are grouped.
ghost use Rattle.std.specs.Prelude.{◌≡◌, ◌≤◌, length, map};
ghost use Rattle.battle_algebra.specs.Ways.{attr_of as attr_of_test};
ghost use Rattle.test_boxes.specs.Readings.{groups_by as does_group, grouping, is_alike as is_alike_read};

use battle_algebra::{attr_of, is_equal_test, is_unequal_test};
use sgl_typed::{Attr, TTest};

/// How an unequal test is read.
#[derive(Clone, Copy, Debug, PartialEq, Eq)]
pub enum Reading {
    /// As it stands.
    Plain,
    /// Not at all.
    Away,
    /// As an equal test.
    Alike,
}

fn is_alike(how: Reading) -> bool
    ensures { result ≡ is_alike_read how }
{
    match how {
        Reading::Plain => false,
        Reading::Away => false,
        Reading::Alike => true,
    }
}

/// Whether the value of a test numbers the groups: that of an equal test does, and that of an unequal one where it is read
/// as an equal one.
pub fn groups_by(how: Reading, test: &TTest) -> bool
    ensures { result ≡ does_group how test.now }
{
    is_equal_test(test) || (is_unequal_test(test) && is_alike(how))
}
