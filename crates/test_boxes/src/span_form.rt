//! The span of an axis in a form that is told once for many acting units.
ghost use Rattle.std.specs.Prelude.{◌≡◌, ◌+◌, ◌<◌, ◌≤◌, ◌&&◌, ◌+ℤ◌, ◌-ℤ◌, ◌≤ℤ◌, ℕ, ℤ, pos, negsuc, int_le, List, None, Option, IfNone, IfSome, length, slice_set};
ghost use Rattle.std.specs.Option.{ForSome};
ghost use Rattle.sgl_values.specs.Range.{in_range};
ghost use Rattle.sgl_evaluate.specs.Rights.{AreRights, right_of};
ghost use Rattle.sgl_typed.specs.Value.{Context};
ghost use Rattle.sgl_typed.specs.declared.script.Attr.{Attr as AttrOf};
ghost use Rattle.sgl_typed.specs.declared.script.TTest.{TTest as TTestOf};
ghost use Rattle.test_boxes.specs.Forms.{AreBelow, IsSpanForm, away_of, is_lower as is_lower_of, is_upper as is_upper_of, passes_bound, passes_form, passes_high, passes_low, passes_others};
ghost use Rattle.test_boxes.specs.Ranges.{IsSpan, holds};

use crate::span::{Span, op_along};
use sgl_evaluate::Rights;
use sgl_typed::{Attr, TTest};
use sgl_values::{CmpOp, Num, TESTS_MAX, VALUE_MAX};

/// What a range test says of a value, by the number of the test: that its comparison with the right side holds.
#[derive(Clone, Copy, Debug)]
pub(crate) struct Bound {
    pub(crate) number: usize,
    pub(crate) op: CmpOp,
}

/// An end of a span, by the number of a test: the values begin or end so far away from its right side, 1 where it is strict.
#[derive(Clone, Copy, Debug)]
pub(crate) struct End {
    pub(crate) number: usize,
    pub(crate) away: u8,
}

/// The range tests along an axis, among at most sixteen tests: the first one from below, the first one from above, and the
/// others, of which most axes have none.
#[derive(Clone, Copy, Debug)]
pub(crate) struct SpanForm {
    pub(crate) low: Option<End>,
    pub(crate) high: Option<End>,
    pub(crate) others: [Bound; TESTS_MAX],
    pub(crate) count: usize,
}

impl SpanForm {
    /// Those of tests along an axis; `None` exactly where there are more than sixteen. It takes no memory.
    pub(crate) fn along(axis: Option<Attr>, tests: &[TTest]) -> Option<SpanForm>
        ensures form { IfSome result (λ form. IsSpanForm form axis tests.now) }
        ensures none { IfNone result (TESTS_MAX < length tests.now) }
    {
        if tests.len() > TESTS_MAX {
            return None;
        }
        let mut form = SpanForm::new();
        for number in 0..tests.len() {
            match op_along(axis, &tests[number]) {
                None => {}
                Some(op) => form.put(Bound { number, op }),
            }
        }
        Some(form)
    }

    // No range test.
    fn new() -> SpanForm
        ensures low { result.low ≡ None }
        ensures high { result.high ≡ None }
        ensures count { result.count ≡ 0 }
    {
        let none = Bound {
            number: 0,
            op: CmpOp::Eq,
        };
        SpanForm {
            low: None,
            high: None,
            others: [none; TESTS_MAX],
            count: 0,
        }
    }

    // Puts one beside those that stand there: as an end, where it is the first on its side.
    fn put(&mut self, bound: Bound)
        requires { self.old.count < TESTS_MAX }
        ensures count { self.new.count ≤ self.old.count + 1 }
        ensures below { (most : ℕ) → bound.number < most → AreBelow self.old most → AreBelow self.new most }
        ensures same { (right : TTestOf → ℤ) (tests : List TTestOf) (d : TTestOf) (v : ℤ)
            → passes_form right tests d v self.new ≡ (passes_form right tests d v self.old && passes_bound right tests d v bound) }
    {
        if self.low.is_none() && is_lower(bound.op) {
            self.low = Some(end_of(bound));
        } else if self.high.is_none() && is_upper(bound.op) {
            self.high = Some(end_of(bound));
        } else {
            self.push(bound);
        }
    }

    // Puts one after the others.
    fn push(&mut self, bound: Bound)
        requires { self.old.count < TESTS_MAX }
        ensures low { self.new.low ≡ self.old.low }
        ensures high { self.new.high ≡ self.old.high }
        ensures others { self.new.others ≡ slice_set self.old.others self.old.count bound }
        ensures count { self.new.count ≡ self.old.count + 1 }
    {
        self.others[self.count] = bound;
        self.count += 1;
    }

    /// The values that pass the range tests, given their right sides. It takes no memory.
    pub(crate) fn span(&self, rights: &Rights) -> Span
        requires { AreBelow self.now TESTS_MAX }
        ensures { (c : Context) (tests : List TTestOf) (axis : Option AttrOf) → IsSpanForm self.now axis tests → AreRights c tests rights.now
            → IsSpan result axis (right_of c) tests }
    {
        let ends = self.ends(rights);
        if self.count == 0 {
            return ends;
        }
        self.narrowed(ends, rights)
    }

    // The values of the language between the ends.
    fn ends(&self, rights: &Rights) -> Span
        requires { AreBelow self.now TESTS_MAX }
        ensures { (c : Context) (tests : List TTestOf) (d : TTestOf) (v : ℤ) → AreBelow self.now (length tests) → AreRights c tests rights.now
            → holds result v ≡ (in_range v && (passes_low (right_of c) tests d v self.now.low && passes_high (right_of c) tests d v self.now.high)) }
    {
        Span {
            low: low_of(self.low, rights),
            high: high_of(self.high, rights),
        }
    }

    // What is left of a span where the others have to hold too.
    fn narrowed(&self, ends: Span, rights: &Rights) -> Span
        requires { AreBelow self.now TESTS_MAX }
        ensures { (c : Context) (tests : List TTestOf) (axis : Option AttrOf) (d : TTestOf) (v : ℤ) → IsSpanForm self.now axis tests → AreRights c tests rights.now
            → holds result v ≡ (holds ends v && passes_others (right_of c) tests d v self.now) }
    {
        let mut span = ends;
        for place in 0..self.count.min(TESTS_MAX) {
            let bound = self.others[place];
            span = span.compared(bound.op, rights.one(bound.number));
        }
        span
    }
}

// A comparison asks for larger values.
fn is_lower(op: CmpOp) -> bool
    ensures { result ≡ is_lower_of op }
{
    matches!(op, CmpOp::Gt | CmpOp::Ge)
}

// A comparison asks for smaller values.
fn is_upper(op: CmpOp) -> bool
    ensures { result ≡ is_upper_of op }
{
    matches!(op, CmpOp::Lt | CmpOp::Le)
}

// The end that a test sets.
fn end_of(bound: Bound) -> End
    ensures number { result.number ≡ bound.number }
    ensures away { result.away ≡ away_of bound.op }
{
    End {
        number: bound.number,
        away: u8::from(matches!(bound.op, CmpOp::Gt | CmpOp::Lt)),
    }
}

// The least value that an end from below lets through, or that of the language, where there is none.
fn low_of(end: Option<End>, rights: &Rights) -> i64
    requires { ForSome end (λ end. end.number < TESTS_MAX) }
    ensures { (c : Context) (tests : List TTestOf) (d : TTestOf) (v : ℤ) → ForSome end (λ end. end.number < length tests) → AreRights c tests rights.now
        → int_le result v ≡ (passes_low (right_of c) tests d v end && int_le (negsuc 999999999999) v) }
{
    match end {
        None => -VALUE_MAX,
        Some(end) => raised(rights.one(end.number), end.away),
    }
}

// The greatest value that an end from above lets through, or that of the language, where there is none.
fn high_of(end: Option<End>, rights: &Rights) -> i64
    requires { ForSome end (λ end. end.number < TESTS_MAX) }
    ensures { (c : Context) (tests : List TTestOf) (d : TTestOf) (v : ℤ) → ForSome end (λ end. end.number < length tests) → AreRights c tests rights.now
        → int_le v result ≡ (passes_high (right_of c) tests d v end && int_le v (pos 1000000000000)) }
{
    match end {
        None => VALUE_MAX,
        Some(end) => lowered(rights.one(end.number), end.away),
    }
}

// So much above a number, which is not below the least one.
fn raised(number: Num, away: u8) -> i64
    ensures value { result ≡ number +ℤ pos away }
    ensures least { negsuc 999999999999 ≤ℤ result }
{
    number.get() + i64::from(away)
}

// So much below a number, which is not above the greatest one.
fn lowered(number: Num, away: u8) -> i64
    ensures value { result ≡ number -ℤ pos away }
    ensures most { result ≤ℤ pos 1000000000000 }
{
    number.get() - i64::from(away)
}
