//! Sorted groups for the clause of an effect.
ghost use Rattle.std.specs.Prelude.{◌≡◌, ◌≤◌, true, length, map};
ghost use Rattle.battle_algebra.specs.Ways.{attr_of, x_of, y_of};
ghost use Rattle.test_boxes.specs.Readings.{grouping};

use crate::left::Left;
use battle_algebra::{first_range, next_range};
use row_groups::{Groups, SortedGroups};
use sgl_typed::{Attr, TTest};
use test_boxes::{GroupingAttrs, Reading};

/// Which sorted groups the clause of an effect reads, and which of its tests strips of them leave.
#[derive(Clone, Copy, Debug)]
pub(crate) struct SlabUse {
    pub(crate) number: usize,
    pub(crate) left: Left,
}

/// Groups, with the rows of each by rising value of an attribute and with their ranks by another.
#[derive(Clone, Copy)]
pub(crate) struct Slab<'a> {
    pub(crate) groups: &'a Groups,
    pub(crate) axis: Option<Attr>,
    pub(crate) across: Option<Attr>,
    pub(crate) sorted: &'a SortedGroups,
    // The tests that its strips leave.
    pub(crate) left: Left,
}

impl Slab<'_> {
    /// Whether rows are in groups by the attributes of the tests that are equal as they are read, and in strips of those of
    /// the range tests.
    pub(crate) fn is_for(&self, tests: &[TTest], how: Reading) -> bool
        requires { length (grouping how tests.now) ≤ 4 }
        ensures attrs { result ≡ true → self.now.groups.now.attrs ≡ map attr_of (grouping how tests.now) }
        ensures axis { result ≡ true → self.now.axis ≡ x_of tests.now }
        ensures across { result ≡ true → self.now.across ≡ y_of tests.now }
    {
        let axis = first_range(tests);
        (self.axis == axis && self.across == next_range(axis, tests))
            && self.groups.is_by(GroupingAttrs::of(tests, how).as_slice())
    }
}
