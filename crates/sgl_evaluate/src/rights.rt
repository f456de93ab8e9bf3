//! The right sides of tests, evaluated once.
ghost use Rattle.std.specs.Prelude.{◌≡◌, ◌<◌, IfErr, IfOk, List, None, OnOk, Some, get_or, length, pos, replicate};
ghost use Rattle.std.specs.Option.{ForSome};
ghost use Rattle.sgl_typed.specs.Aggregate.{number_in as number_of, right_side as right_side_of, simple_value};
ghost use Rattle.sgl_evaluate.specs.Forms.{FitSlots};
ghost use Rattle.sgl_evaluate.specs.Frame.{context_of, IsFrame};
ghost use Rattle.sgl_typed.specs.Value.{Context};
ghost use Rattle.sgl_evaluate.specs.Rights.{AreRights, first_fault_of, right_of};
ghost use Rattle.sgl_typed.specs.declared.script.TTest.{TTest};

use crate::calls::NoCalls;
use crate::evaluator::evaluate;
use crate::forms::RightForms;
use crate::frame::Frame;
use crate::number::number_at_once;
use sgl_typed::{TExpr, TTest};
use sgl_values::{Fault, Num, TESTS_MAX, Val};

/// The right sides of tests as numbers: those of the first sixteen tests. That of a later one is evaluated anew where it
/// is read, so that a list of any length takes no memory.
#[derive(Clone, Copy)]
pub struct Rights {
    pub(crate) numbers: [Num; TESTS_MAX],
}

impl Rights {
    /// Right sides that are all 0, until they are read.
    pub fn zero() -> Rights
        ensures { result.numbers ≡ replicate TESTS_MAX (pos 0) }
    {
        Rights {
            numbers: [Num::zero(); TESTS_MAX],
        }
    }

    /// The right sides of tests in their order, or the first fault among them. It takes no memory.
    pub fn read(frame: &Frame, tests: &[TTest]) -> Result<Rights, Fault>
        requires { IsFrame frame.now }
        ensures numbers { IfOk result (AreRights (context_of frame.now) tests.now) }
        ensures whole { IfOk result (λ _. first_fault_of (context_of frame.now) tests.now ≡ None) }
        ensures fault { IfErr result (λ fault. first_fault_of (context_of frame.now) tests.now ≡ Some fault) }
    {
        let mut rights = Rights::zero();
        rights.fill(frame, tests)?;
        Ok(rights)
    }

    /// The same in the place of others, by the forms of the right sides where there are any. On a fault nothing is said of
    /// what stands there.
    pub fn fill_by(
        &mut self,
        frame: &Frame,
        tests: &[TTest],
        forms: Option<&RightForms>,
    ) -> Result<(), Fault>
        requires frame { IsFrame frame.now }
        requires forms { ForSome forms (λ forms. FitSlots forms.now frame.now.slots.now tests.now) }
        ensures numbers { OnOk result (AreRights (context_of frame.now) tests.now self.new) }
        ensures whole { OnOk result (first_fault_of (context_of frame.now) tests.now ≡ None) }
        ensures fault { IfErr result (λ fault. first_fault_of (context_of frame.now) tests.now ≡ Some fault) }
    {
        match forms {
            None => self.fill(frame, tests),
            Some(forms) => {
                if forms.read(frame, self) {
                    Ok(())
                } else {
                    self.fill(frame, tests)
                }
            }
        }
    }

    // The same from the tests.
    fn fill(&mut self, frame: &Frame, tests: &[TTest]) -> Result<(), Fault>
        requires { IsFrame frame.now }
        ensures numbers { OnOk result (AreRights (context_of frame.now) tests.now self.new) }
        ensures whole { OnOk result (first_fault_of (context_of frame.now) tests.now ≡ None) }
        ensures fault { IfErr result (λ fault. first_fault_of (context_of frame.now) tests.now ≡ Some fault) }
    {
        let count = tests.len().min(TESTS_MAX);
        for number in 0..count {
            self.numbers[number] = right_number(frame, &tests[number])?;
        }
        match first_fault(frame, &tests[count..]) {
            None => Ok(()),
            Some(fault) => Err(fault),
        }
    }

    /// The right side of the test with this number, which is one of the first sixteen.
    pub fn one(&self, number: usize) -> Num
        requires { number < TESTS_MAX }
        ensures { (c : Context) (tests : List TTest) (test : TTest) → AreRights c tests self.now → number < length tests
            → result ≡ right_of c (get_or tests number test) }
    {
        self.numbers[number]
    }

    /// The right side of the test with this number.
    pub fn at(&self, frame: &Frame, tests: &[TTest], number: usize) -> Num
        requires frame { IsFrame frame.now }
        requires rights { AreRights (context_of frame.now) tests.now self.now }
        requires number { number < length tests.now }
        ensures { (test : TTest) → result ≡ right_of (context_of frame.now) (get_or tests.now number test) }
    {
        if number < TESTS_MAX {
            self.one(number)
        } else {
            right_side(frame, &tests[number])
        }
    }
}

// The first fault of the right sides of tests, in their order.
fn first_fault(frame: &Frame, tests: &[TTest]) -> Option<Fault>
    requires { IsFrame frame.now }
    ensures { result ≡ first_fault_of (context_of frame.now) tests.now }
{
    for test in tests {
        if let Err(fault) = right_number(frame, test) {
            return Some(fault);
        }
    }
    None
}

// The right side of a test as a number, and 0 in place of a fault.
fn right_side(frame: &Frame, test: &TTest) -> Num
    requires { IsFrame frame.now }
    ensures { result ≡ right_of (context_of frame.now) test.now }
{
    match right_number(frame, test) {
        Ok(number) => number,
        Err(_) => Num::zero(),
    }
}

// The right side of a test as a number, or its fault.
fn right_number(frame: &Frame, test: &TTest) -> Result<Num, Fault>
    requires { IsFrame frame.now }
    ensures { result ≡ number_of (simple_value (context_of frame.now) (right_side_of test.now)) }
{
    let expr = right_expr(test);
    match number_at_once(frame, expr) {
        Some(number) => Ok(number),
        None => number_in(evaluate(&NoCalls, frame, expr)),
    }
}

/// What an attribute is compared with, or the radius of a circle.
pub(crate) fn right_expr(test: &TTest) -> &TExpr
    ensures { result.now ≡ right_side_of test.now }
{
    match test {
        TTest::Compare { right, .. } => right,
        TTest::Within { radius, .. } => radius,
    }
}

fn number_in(value: Val) -> Result<Num, Fault>
    ensures { result ≡ number_of value }
{
    match value {
        Val::N(number) => Ok(number),
        Val::B(_) => Ok(Num::zero()),
        Val::F(fault) => Err(fault),
    }
}
