//! The values that pass the range tests of an attribute.
ghost use Rattle.std.specs.Prelude.{◌≡◌, ℤ, Option, int_le, true, ◌&&◌, if◌then◌else◌};
ghost use Rattle.sgl_values.specs.Range.{in_range};
ghost use Rattle.sgl_typed.specs.Value.{compares};
ghost use Rattle.sgl_evaluate.specs.Frame.{context_of, IsFrame};
ghost use Rattle.sgl_evaluate.specs.Rights.{AreRights, right_of};
ghost use Rattle.battle_algebra.specs.Ways.{is_along as stands_along, is_range};
ghost use Rattle.sgl_typed.specs.declared.script.Attr.{Attr};
ghost use Rattle.sgl_typed.specs.declared.script.TTest.{TTest};
ghost use Rattle.test_boxes.specs.Forms.{op_along as op_along_of};
ghost use Rattle.test_boxes.specs.Ranges.{holds, meets_number, IsSpan};

use battle_algebra::is_along;
use sgl_evaluate::{Frame, Rights};
use sgl_typed::{Attr, TTest};
use sgl_values::{CmpOp, Num, VALUE_MAX};

/// The whole numbers from one to another, both included; none, where the low one is above the high one.
#[derive(Clone, Copy, Debug, PartialEq, Eq)]
pub struct Span {
    pub low: i64,
    pub high: i64,
}

impl Span {
    /// All values of the language.
    pub fn whole() -> Span
        ensures { (v : ℤ) → holds result v ≡ in_range v }
    {
        Span {
            low: -VALUE_MAX,
            high: VALUE_MAX,
        }
    }

    // What is left where the numbers have to be up to this one too.
    fn up_to(self, high: i64) -> Span
        ensures { (v : ℤ) → holds result v ≡ (int_le v high && holds self v) }
    {
        Span {
            low: self.low,
            high: self.high.min(high),
        }
    }

    // What is left where the numbers have to be from this one on too.
    fn from(self, low: i64) -> Span
        ensures { (v : ℤ) → holds result v ≡ (int_le low v && holds self v) }
    {
        Span {
            low: self.low.max(low),
            high: self.high,
        }
    }

    // What is left where a comparison with a number has to hold too. Only those of range tests narrow the span.
    pub(crate) fn compared(self, op: CmpOp, number: Num) -> Span
        ensures { (v : ℤ) → holds result v ≡ ((if is_range op then compares op v number else true) && holds self v) }
    {
        let number = number.get();
        match op {
            CmpOp::Eq => self,
            CmpOp::Ne => self,
            CmpOp::Lt => self.up_to(number - 1),
            CmpOp::Le => self.up_to(number),
            CmpOp::Gt => self.from(number + 1),
            CmpOp::Ge => self.from(number),
        }
    }

    /// The same where it is that of a range test along an axis, and no more than the span where there is none.
    pub(crate) fn bounded(self, op: Option<CmpOp>, number: Num) -> Span
        ensures { (axis : Option Attr) (test : TTest) → op ≡ op_along_of axis test
            → (v : ℤ) → holds result v ≡ ((if stands_along axis test then meets_number test v number else true) && holds self v) }
    {
        match op {
            None => self,
            Some(op) => self.compared(op, number),
        }
    }

    // The same of a test that stands there.
    fn narrowed(self, axis: Option<Attr>, test: &TTest, right: Num) -> Span
        ensures { (v : ℤ) → holds result v ≡ ((if stands_along axis test.now then meets_number test.now v right else true) && holds self v) }
    {
        self.bounded(op_along(axis, test), right)
    }
}

/// The comparison of a test, where it is a range test of the attribute.
pub(crate) fn op_along(axis: Option<Attr>, test: &TTest) -> Option<CmpOp>
    ensures { result ≡ op_along_of axis test.now }
{
    match test {
        TTest::Compare { op, .. } => {
            if is_along(axis, test) {
                Some(*op)
            } else {
                None
            }
        }
        TTest::Within { .. } => None,
    }
}

/// The values that pass all range tests of an attribute: all values of the language, where it has none or is missing. It
/// takes no memory.
pub(crate) fn span_along(
    frame: &Frame,
    tests: &[TTest],
    rights: &Rights,
    axis: Option<Attr>,
) -> Span
    requires frame { IsFrame frame.now }
    requires rights { AreRights (context_of frame.now) tests.now rights.now }
    ensures { IsSpan result axis (right_of (context_of frame.now)) tests.now }
{
    let mut span = Span::whole();
    for (number, test) in tests.iter().enumerate() {
        span = span.narrowed(axis, test, rights.at(frame, tests, number));
    }
    span
}
