//! Right sides of tests that an attribute of the acting unit decides, or none, in a form that is read in a few steps.
ghost use Rattle.std.specs.Bool.{OnFalse, OnTrue};
ghost use Rattle.std.specs.Prelude.{◌≡◌, ◌<◌, ◌≤◌, length, IfNone, IfSome, List, Some, false, slice_get};
ghost use Rattle.sgl_values.specs.World.{Row, row_at};
ghost use Rattle.sgl_values.specs.declared.fault.Val.TheVariants.{N};
ghost use Rattle.sgl_typed.specs.Value.{attribute, operated as operated_by};
ghost use Rattle.sgl_typed.specs.declared.script.Attr.TheVariants.{Const};
ghost use Rattle.sgl_typed.specs.declared.script.TExpr.{TExpr as TExprOf};
ghost use Rattle.sgl_typed.specs.declared.script.TExpr.TheVariants.{Number as Literal, Unit as Acting};
ghost use Rattle.sgl_typed.specs.declared.script.TTest.{TTest as TTestOf};
ghost use Rattle.sgl_evaluate.specs.Forms.{AreFormsOf, AreSound, GiveAtOnce, HaveForms, HaveLiterals, IsFormOf, IsNumberOf, IsRecent, form_value, gives_at_once, has_form, is_acting, is_literal, is_number};
ghost use Rattle.sgl_evaluate.specs.Frame.{context_of, IsFrame};

use crate::attribute::attribute_of;
use crate::frame::Frame;
use crate::number::operated;
use crate::rights::{Rights, right_expr};
use env_table::World;
use sgl_typed::{Attr, TExpr, TTest};
use sgl_values::{BinOp, Num, Place, TESTS_MAX};

/// The form of a right side: a number, an attribute of the acting unit, the sum of a const attribute and a number (as which a
/// difference is one too), or another operation on an attribute and a number.
#[derive(Clone, Copy, Debug)]
pub(crate) enum Form {
    Number(Num),
    Unit(Attr),
    Sum(u32, Num, Place),
    Shifted(Attr, BinOp, Num, Place),
}

/// The forms of the right sides of at most sixteen tests, for arguments of which some are written as numbers. They stand for
/// any acting unit, so that what the right sides are written as is looked at once, and not for each unit.
#[derive(Clone, Copy, Debug)]
pub struct RightForms {
    forms: [Form; TESTS_MAX],
    count: usize,
}

impl RightForms {
    /// The forms of the right sides of tests, for these arguments; `None` exactly where there are more than sixteen tests, or
    /// a right side has no form. It takes no memory.
    pub fn of(args: &[TExpr], tests: &[TTest]) -> Option<RightForms>
        ensures forms { IfSome result (λ forms. AreFormsOf forms args.now tests.now) }
        ensures none { IfNone result (¬ HaveForms args.now tests.now) }
    {
        if tests.len() > TESTS_MAX {
            return None;
        }
        let mut forms = [Form::Number(Num::zero()); TESTS_MAX];
        for number in 0..tests.len() {
            forms[number] = form_of(args, right_expr(&tests[number]))?;
        }
        Some(RightForms {
            forms,
            count: tests.len(),
        })
    }

    /// Reads the right sides of the tests for the acting unit of a frame, whose slots are the arguments, and says whether all
    /// are read: not, exactly where a form gives no number at once, as one that is no sum, difference or product in the
    /// range, and then they are to be read from the tests. It takes no memory.
    pub fn read(&self, frame: &Frame, rights: &mut Rights) -> bool
        requires frame { IsFrame frame.now }
        ensures none { OnFalse result (¬ GiveAtOnce self.now (context_of frame.now).unit) }
        ensures rights { (args : List TExprOf) (tests : List TTestOf) → AreFormsOf self.now args tests → HaveLiterals args frame.now.slots.now
            → OnTrue result (AreSound (context_of frame.now) tests rights.new) }
    {
        let (world, unit) = (frame.tick.world, frame.unit);
        let mut recent = Recent::of(world, unit, u32::MAX);
        for number in 0..self.count.min(TESTS_MAX) {
            match number_by(world, unit, &mut recent, self.forms[number]) {
                Some(value) => rights.numbers[number] = value,
                None => return false,
            }
        }
        true
    }
}

// The form of an expression.
fn form_of(args: &[TExpr], expr: &TExpr) -> Option<Form>
    ensures form { IfSome result (λ form. IsFormOf form args.now expr.now) }
    ensures none { IfNone result (has_form args.now expr.now ≡ false) }
{
    match expr {
        TExpr::Unit(attr) => Some(Form::Unit(*attr)),
        TExpr::Binary {
            op,
            left,
            right,
            place,
        } => {
            let attr = acting(left.get())?;
            let number = number_of(args, right.get())?;
            Some(operation_form(attr, *op, number, *place))
        }
        other => match number_of(args, other) {
            None => None,
            Some(number) => Some(Form::Number(number)),
        },
    }
}

// The form of an operation on an attribute and a number.
fn operation_form(attr: Attr, op: BinOp, number: Num, place: Place) -> Form
    ensures { (unit : Row) → form_value result unit ≡ operated_by op place (N (attribute attr unit)) (N number) }
{
    match attr {
        Attr::Key => Form::Shifted(attr, op, number, place),
        Attr::Const(own) => match op {
            BinOp::Add => Form::Sum(own, number, place),
            BinOp::Sub => Form::Sum(own, number.negated(), place),
            _ => Form::Shifted(attr, op, number, place),
        },
    }
}

// The attribute of the acting unit that an expression is.
fn acting(expr: &TExpr) -> Option<Attr>
    ensures attr { IfSome result (λ attr. expr.now ≡ Acting attr) }
    ensures none { IfNone result (is_acting expr.now ≡ false) }
{
    match expr {
        TExpr::Unit(attr) => Some(*attr),
        _ => None,
    }
}

// The number that an expression is, by itself or as an argument.
fn number_of(args: &[TExpr], expr: &TExpr) -> Option<Num>
    ensures number { IfSome result (λ number. IsNumberOf number args.now expr.now) }
    ensures none { IfNone result (is_literal args.now expr.now ≡ false) }
{
    match expr {
        TExpr::Slot(slot) => literal_at(args, *slot),
        other => literal(other),
    }
}

// The number as which an argument is written.
fn literal_at(args: &[TExpr], slot: u32) -> Option<Num>
    ensures number { IfSome result (λ number. slice_get args.now slot ≡ Some (Literal number)) }
    ensures none { IfNone result (is_number (slice_get args.now slot) ≡ false) }
{
    literal(args.get(slot as usize)?)
}

// The number as which an expression is written.
fn literal(expr: &TExpr) -> Option<Num>
    ensures number { IfSome result (λ number. expr.now ≡ Literal number) }
    ensures none { IfNone result (is_number (Some expr.now) ≡ false) }
{
    match expr {
        TExpr::Number(number) => Some(*number),
        _ => None,
    }
}

// The const attribute of an acting unit that was read last. The two bounds of a range are often shifted from one attribute.
#[derive(Clone, Copy)]
struct Recent {
    attr: u32,
    value: Num,
}

impl Recent {
    // That one.
    fn of(world: &World, unit: u32, attr: u32) -> Recent
        requires { unit < length world.now.world.rows }
        ensures attr { result.attr ≡ attr }
        ensures value { IsRecent result (row_at world.now.world unit) }
    {
        Recent {
            attr,
            value: attribute_of(world, unit, Attr::Const(attr)),
        }
    }

    // Another one, which is looked up where it is not the same.
    fn read(&mut self, world: &World, unit: u32, attr: u32) -> Num
        requires unit { unit < length world.now.world.rows }
        requires recent { IsRecent self.old (row_at world.now.world unit) }
        ensures value { result ≡ attribute (Const attr) (row_at world.now.world unit) }
        ensures recent { IsRecent self.new (row_at world.now.world unit) }
    {
        if attr == self.attr {
            return self.value;
        }
        *self = Recent::of(world, unit, attr);
        self.value
    }
}

// The number that a form has for an acting unit, where it is one.
fn number_by(world: &World, unit: u32, recent: &mut Recent, form: Form) -> Option<Num>
    requires unit { unit < length world.now.world.rows }
    requires recent { IsRecent recent.old (row_at world.now.world unit) }
    ensures number { IfSome result (λ number. form_value form (row_at world.now.world unit) ≡ N number) }
    ensures none { IfNone result (gives_at_once (row_at world.now.world unit) form ≡ false) }
    ensures recent { IsRecent recent.new (row_at world.now.world unit) }
{
    match form {
        Form::Number(number) => Some(number),
        Form::Unit(attr) => Some(attribute_of(world, unit, attr)),
        Form::Sum(attr, number, _place) => {
            operated(BinOp::Add, recent.read(world, unit, attr), number)
        }
        Form::Shifted(attr, op, number, _place) => {
            operated(op, attribute_of(world, unit, attr), number)
        }
    }
}
