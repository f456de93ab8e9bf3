//! The unequal test of tests that have one: the attribute whose value leaves rows out, and that value.
ghost use Rattle.std.specs.Prelude.{◌≡◌};
ghost use Rattle.sgl_evaluate.specs.Frame.{context_of, IsFrame};
ghost use Rattle.sgl_evaluate.specs.Rights.{AreRights, right_of};
ghost use Rattle.test_boxes.specs.Others.{other_asked as other_by, other_of as other_in};

use battle_algebra::{attr_of, is_unequal_test};
use sgl_evaluate::{Frame, Rights};
use sgl_typed::{Attr, TTest};

/// The attribute of the first unequal test.
pub fn other_of(tests: &[TTest]) -> Option<Attr>
    ensures { result ≡ other_in tests.now }
{
    for test in tests {
        if is_unequal_test(test) {
            return Some(attr_of(test));
        }
    }
    None
}

/// The right side of the first unequal test.
pub fn other_asked(frame: &Frame, tests: &[TTest], rights: &Rights) -> Option<i64>
    requires frame { IsFrame frame.now }
    requires rights { AreRights (context_of frame.now) tests.now rights.now }
    ensures { result ≡ other_by (right_of (context_of frame.now)) tests.now }
{
    for number in 0..tests.len() {
        if is_unequal_test(&tests[number]) {
            return Some(rights.at(frame, tests, number).get());
        }
    }
    None
}
