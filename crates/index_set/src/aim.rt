//! The one row that a clause goes to, where its tests ask for a key.
ghost use Rattle.std.specs.Bool.{OnFalse};
ghost use Rattle.std.specs.Prelude.{◌≡◌, ℤ, IfNone, IfSome, None};
ghost use Rattle.sgl_typed.specs.declared.script.TTest.{TTest as TTestOf};
ghost use Rattle.key_table.specs.Keys.{keys_of};
ghost use Rattle.sgl_evaluate.specs.Frame.{context_of, IsFrame};
ghost use Rattle.sgl_evaluate.specs.Rights.{right_of};
ghost use Rattle.index_set.specs.Aims.{IsAim};
ghost use Rattle.index_set.specs.Keyed.{key_asked as asked_by};
ghost use Rattle.index_set.specs.Sets.{keys_in};

use crate::keyed::{is_key_test, key_asked, keyed_row};
use crate::set::IndexSet;
use sgl_evaluate::{Frame, Rights};
use sgl_typed::TTest;
use sgl_values::Fault;

/// What a clause goes to whose tests ask for a key: nothing but the first fault of their right sides, or the row with the
/// key, where there is one and it passes.
#[derive(Clone, Copy, Debug)]
pub enum KeyedAim {
    Faulty(Fault),
    Row(Option<u32>),
}

impl IndexSet {
    /// What a clause with these tests goes to, whose arguments are the slots of the frame; `None` where they ask for no key,
    /// and only there. It takes no memory.
    pub fn keyed_aim(&self, frame: &Frame, tests: &[TTest]) -> Option<KeyedAim>
        requires frame { IsFrame frame.now }
        requires keys { keys_in self.now ≡ keys_of frame.now.tick.world.now.world }
        ensures aim { IfSome result (λ aim. IsAim aim (context_of frame.now) tests.now) }
        ensures none { IfNone result (asked_by (right_of (context_of frame.now)) tests.now ≡ None) }
    {
        if !asks_for_key(tests) {
            return None;
        }
        match Rights::read(frame, tests) {
            Err(fault) => Some(KeyedAim::Faulty(fault)),
            Ok(rights) => {
                let key = key_asked(frame, tests, &rights)?;
                let row = keyed_row(frame, tests, &rights, &self.keys, key);
                Some(KeyedAim::Row(row))
            }
        }
    }
}

// Whether a test asks for a key.
fn asks_for_key(tests: &[TTest]) -> bool
    ensures { (right : TTestOf → ℤ) → OnFalse result (asked_by right tests.now ≡ None) }
{
    for test in tests {
        if is_key_test(test) {
            return true;
        }
    }
    false
}
