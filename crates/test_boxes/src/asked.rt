//! The box that range tests ask for, and what tests ask for in a form that is told once for many acting units.
ghost use Rattle.std.specs.Prelude.{◌≡◌, IfErr, IfNone, IfSome, List, None, OnOk, Some};
ghost use Rattle.std.specs.Bool.{OnFalse, OnTrue};
ghost use Rattle.std.specs.Option.{ForSome};
ghost use Rattle.sgl_values.specs.declared.fault.Val.{Val as ValOf};
ghost use Rattle.sgl_evaluate.specs.Forms.{AreSound, GiveAtOnce, HaveForms};
ghost use Rattle.sgl_evaluate.specs.Frame.{context_of, IsFrame};
ghost use Rattle.sgl_evaluate.specs.Rights.{AreRights, first_fault_of, right_of};
ghost use Rattle.sgl_typed.specs.declared.script.TExpr.{TExpr as TExprOf};
ghost use Rattle.sgl_typed.specs.declared.script.TTest.{TTest as TTestOf};
ghost use Rattle.test_boxes.specs.Forms.{AreTestForms, FitTests, IsAsked, IsAsking, IsKeyForm, IsSpanForm};
ghost use Rattle.test_boxes.specs.Ranges.{IsSpan};

use crate::asking::Asking;
use crate::key_form::KeyForm;
use crate::reading::Reading;
use crate::span::{Span, span_along};
use crate::span_form::SpanForm;
use battle_algebra::{first_range, next_range};
use sgl_evaluate::{Frame, RightForms, Rights};
use sgl_typed::{Attr, TExpr, TTest};
use sgl_values::Fault;

/// The box that the range tests ask for: the values of their first attribute that pass, and those of the second.
#[derive(Clone, Copy, Debug)]
pub struct AskedBox {
    pub across: Span,
    pub down: Span,
}

/// The forms of at most sixteen tests, for arguments of which some are written as numbers: of their right sides, and of
/// the box that they ask for. They stand for any acting unit, so that tests are looked at once, and not for each unit.
#[derive(Clone, Copy, Debug)]
pub struct TestForms {
    pub(crate) rights: RightForms,
    pub(crate) across: SpanForm,
    pub(crate) down: SpanForm,
    pub(crate) plain: KeyForm,
    pub(crate) alike: KeyForm,
}

impl TestForms {
    /// The forms of tests, for these arguments; `None` exactly where there are more than sixteen tests, or a right side has
    /// no form. It takes no memory.
    pub fn of(args: &[TExpr], tests: &[TTest]) -> Option<TestForms>
        ensures forms { IfSome result (λ forms. AreTestForms forms args.now tests.now) }
        ensures none { IfNone result (¬ HaveForms args.now tests.now) }
    {
        let rights = RightForms::of(args, tests)?;
        let x = first_range(tests);
        let y = next_range(x, tests);
        let across = SpanForm::along(x, tests)?;
        let down = SpanForm::along(y, tests)?;
        Some(TestForms {
            rights,
            across,
            down,
            plain: KeyForm::of(tests, Reading::Away),
            alike: KeyForm::of(tests, Reading::Alike),
        })
    }

    /// The form of the key that tests ask for in this reading.
    pub(crate) fn key(&self, how: Reading) -> &KeyForm
        ensures { (args : List TExprOf) (tests : List TTestOf) → AreTestForms self.now args tests → IsKeyForm result.now how tests }
    {
        match how {
            Reading::Plain => &self.plain,
            Reading::Away => &self.plain,
            Reading::Alike => &self.alike,
        }
    }
}

/// Reads the right sides of tests in the place of others, at once by their forms or else from the tests, and tells their first
/// fault: then nothing is said of what stands there. It takes no memory.
pub fn rights_fault(
    frame: &Frame,
    tests: &[TTest],
    forms: Option<&TestForms>,
    rights: &mut Rights,
) -> Option<Fault>
    requires frame { IsFrame frame.now }
    requires forms { ForSome forms (λ forms. FitTests forms.now frame.now.slots.now tests.now) }
    ensures numbers { IfNone result (AreRights (context_of frame.now) tests.now rights.new) }
    ensures whole { IfNone result (first_fault_of (context_of frame.now) tests.now ≡ None) }
    ensures fault { IfSome result (λ fault. first_fault_of (context_of frame.now) tests.now ≡ Some fault) }
{
    if reads_at_once(frame, forms, rights) {
        return None;
    }
    match rights.fill_by(frame, tests, None) {
        Ok(()) => None,
        Err(fault) => Some(fault),
    }
}

// Reads the right sides of tests in the place of others by their forms, where these are told, and says whether all are read:
// not, exactly where none are told or one gives no number at once, and then nothing is said of what stands there, and the
// right sides are to be read from the tests.
fn reads_at_once(frame: &Frame, forms: Option<&TestForms>, rights: &mut Rights) -> bool
    requires { IsFrame frame.now }
    ensures none { OnFalse result (ForSome forms.entry (λ forms. ¬ GiveAtOnce forms.now.rights (context_of frame.now).unit)) }
    ensures rights { (tests : List TTestOf) → ForSome forms.entry (λ forms. FitTests forms.now frame.now.slots.now tests)
        → OnTrue result (AreSound (context_of frame.now) tests rights.new) }
{
    match forms {
        None => false,
        Some(forms) => forms.rights.read(frame, rights),
    }
}

/// Reads the right sides of tests in the place of others, by their forms where these are told. On a fault nothing is said
/// of what stands there.
pub fn read_rights(
    frame: &Frame,
    tests: &[TTest],
    forms: Option<&TestForms>,
    rights: &mut Rights,
) -> Result<(), Fault>
    requires frame { IsFrame frame.now }
    requires forms { ForSome forms (λ forms. FitTests forms.now frame.now.slots.now tests.now) }
    ensures numbers { OnOk result (AreRights (context_of frame.now) tests.now rights.new) }
    ensures whole { OnOk result (first_fault_of (context_of frame.now) tests.now ≡ None) }
    ensures fault { IfErr result (λ fault. first_fault_of (context_of frame.now) tests.now ≡ Some fault) }
{
    match forms {
        None => rights.fill_by(frame, tests, None),
        Some(forms) => rights.fill_by(frame, tests, Some(&forms.rights)),
    }
}

/// The box that the range tests ask for, by the forms of the tests where these are told. It takes no memory.
pub fn asked_box(asking: &Asking, tests: &[TTest]) -> AskedBox
    requires { IsAsking asking.now tests.now }
    ensures { IsAsked result (right_of (context_of asking.now.frame.now)) tests.now }
{
    match asking.forms {
        Some(forms) => AskedBox {
            across: forms.across.span(asking.rights),
            down: forms.down.span(asking.rights),
        },
        None => {
            let x = first_range(tests);
            let y = next_range(x, tests);
            AskedBox {
                across: span_along(asking.frame, tests, asking.rights, x),
                down: span_along(asking.frame, tests, asking.rights, y),
            }
        }
    }
}
