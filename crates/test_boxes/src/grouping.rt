//! The attributes by whose values rows are in groups.
ghost use Rattle.std.specs.Prelude.{◌≡◌, ◌<◌, ◌≤◌, [], ◌∷◌, ◌++◌, length, map};
ghost use Rattle.battle_algebra.specs.Ways.{attr_of as attr_of_test};
ghost use Rattle.test_boxes.specs.Readings.{grouping};

use crate::reading::{Reading, groups_by};
use battle_algebra::attr_of;
use sgl_typed::{Attr, TTest};
use std::marker::Model;

/// The attributes by whose values rows are in groups, at most four. Contracts see them as a list.
#[derive(Debug, Drop)]
pub struct GroupingAttrs {
    attrs: [Attr; 4],
    count: usize,
}

impl Model for GroupingAttrs {
    ghost use Rattle.std.specs.Prelude.{◌≡◌, ◌≤◌, List, length, take};
    ghost use Rattle.sgl_typed.specs.declared.script.Attr.{Attr};

    ghost Value = { List Attr };

    ghost view = { λ it. take it.count it.attrs };

    ghost invariant = { λ it. (it.count ≤ 4) × (length it.attrs ≡ 4) };
}

impl GroupingAttrs {
    /// Those of the tests whose values number groups, in their order. It takes no memory.
    pub fn of(tests: &[TTest], how: Reading) -> GroupingAttrs
        requires { length (grouping how tests.now) ≤ 4 }
        ensures { result ≡ map attr_of_test (grouping how tests.now) }
    {
        let mut attrs = GroupingAttrs::new();
        for test in tests {
            if groups_by(how, test) {
                attrs.push(attr_of(test));
            }
        }
        attrs
    }

    /// The attributes in their order.
    pub fn as_slice(&self) -> &[Attr]
        ensures { result.now ≡ self.now }
    {
        &self.attrs[..self.count]
    }

    // No attribute.
    fn new() -> GroupingAttrs
        ensures { result ≡ [] }
    {
        GroupingAttrs {
            attrs: [Attr::Key; 4],
            count: 0,
        }
    }

    // Puts one after the others.
    fn push(&mut self, attr: Attr)
        requires { length self.old < 4 }
        ensures { self.new ≡ self.old ++ attr ∷ [] }
    {
        self.attrs[self.count] = attr;
        self.count += 1;
    }
}
