//! The key that the tests ask for: the right sides of those whose values number groups.
ghost use Rattle.std.specs.Prelude.{◌≡◌, ℤ, List, [], ◌∷◌, ◌++◌, map};
ghost use Rattle.sgl_evaluate.specs.Frame.{context_of, IsFrame};
ghost use Rattle.sgl_evaluate.specs.Rights.{AreRights, right_of};
ghost use Rattle.row_groups.specs.Keys.{four_of};
ghost use Rattle.test_boxes.specs.Forms.{IsAsking};
ghost use Rattle.test_boxes.specs.Keys.{AreValues};
ghost use Rattle.test_boxes.specs.Readings.{grouping};

use crate::asking::Asking;
use crate::reading::{Reading, groups_by};
use sgl_evaluate::{Frame, Rights};
use sgl_typed::TTest;
use sgl_values::Num;

// Up to four values in their order, and 0 in the place of each that is missing.
#[derive(Clone, Copy, Debug)]
pub(crate) struct Values {
    pub(crate) four: [Num; 4],
    pub(crate) count: usize,
}

impl Values {
    // No value.
    fn new() -> Values
        ensures { AreValues result [] }
    {
        Values {
            four: [Num::zero(); 4],
            count: 0,
        }
    }

    // Puts a value after the others. A fifth one is left out.
    fn push(&mut self, value: Num)
        ensures { (zs : List ℤ) → AreValues self.old zs → AreValues self.new (zs ++ value ∷ []) }
    {
        if self.count < 4 {
            self.four[self.count] = value;
            self.count += 1;
        }
    }
}

/// The key that the tests ask for: the right sides of the tests whose values number groups, in their order, up to the
/// fourth, and 0 in the place of each that is missing. By the forms of the tests, where these are told. It takes no memory.
pub fn asked_key(asking: &Asking, tests: &[TTest], how: Reading) -> [Num; 4]
    requires { IsAsking asking.now tests.now }
    ensures { result ≡ four_of (map (right_of (context_of asking.now.frame.now)) (grouping how tests.now)) }
{
    match asking.forms {
        None => key_of(asking.frame, tests, asking.rights, how),
        Some(forms) => forms.key(how).key(asking.rights),
    }
}

// The same from the tests.
fn key_of(frame: &Frame, tests: &[TTest], rights: &Rights, how: Reading) -> [Num; 4]
    requires frame { IsFrame frame.now }
    requires rights { AreRights (context_of frame.now) tests.now rights.now }
    ensures { result ≡ four_of (map (right_of (context_of frame.now)) (grouping how tests.now)) }
{
    let mut values = Values::new();
    for (number, test) in tests.iter().enumerate() {
        if groups_by(how, test) {
            values.push(rights.at(frame, tests, number));
        }
    }
    values.four
}
