//! Checks expressions: the kind, number or truth, of each part, and what its names stand for.
ghost use Rattle.std.specs.Prelude.{◌≡◌, ◌++◌, map, pos, nat_le, bytes_eq, IfOk, OnOk};
ghost use Rattle.sgl_types.specs.declared.finding.TypeKind.TheVariants.{LiteralRange, UnknownName};
ghost use Rattle.sgl_types.specs.Findings.{noted};
ghost use Rattle.sgl_types.specs.Scope.{scope_of, scope_at, callee_of, attribute_of, find_local as find_local_of};
ghost use Rattle.sgl_types.specs.Faults.{faults, wants, unwanted, kind_of as kind_in, place_of as place_in, result_kind as result_kind_of, operand_kind as operand_kind_of, callee_faults, undeclared_faults, dotted_faults, local_faults, name_faults, call_faults_in, operand_faults, numbers_faults, is_row_of};
ghost use Rattle.sgl_typed.specs.declared.script.TExpr.TheVariants.{Binary};
ghost use Rattle.sgl_types.specs.Rules.{fault_unless};
ghost use Rattle.sgl_types.specs.Typed.{typed, bare as bare_of, attr as attr_of, named, read as read_of, callee_number as number_of_callee, within_or_zero, slot as slot_of};

use crate::bodies::{Body, Locals, Part, Site, find_local};
use crate::declared::{AttrName, Callee, attribute, find_callee};
use crate::finding::{Finding, TypeKind, note, note_unless};
use crate::names::is_same;
use sgl_tree::{Expr, Name};
use sgl_typed::{AggUse, Attr, Kind, TExpr};
use sgl_values::{BinOp, Boxed, List, Memory, Num, Place, RANDOM_INDEX_MAX, Text};

/// The place of an expression.
pub fn place_of(expr: &Expr) -> Place
    ensures { result ≡ place_in expr.now }
{
    match expr {
        Expr::Number { place, .. } => *place,
        Expr::Truth { place, .. } => *place,
        Expr::Local { name } => name.place,
        Expr::Field { of, .. } => of.place,
        Expr::Call { name, .. } => name.place,
        Expr::Random { place, .. } => *place,
        Expr::Neg { place, .. } => *place,
        Expr::Not { place, .. } => *place,
        Expr::Binary { place, .. } => *place,
    }
}

fn result_kind(op: BinOp) -> Kind
    ensures { result ≡ result_kind_of op }
{
    match op {
        BinOp::Cmp(_) => Kind::Logical,
        BinOp::And | BinOp::Or | BinOp::Add | BinOp::Sub | BinOp::Mul | BinOp::Div | BinOp::Rem =>
            operand_kind(op),
    }
}

fn operand_kind(op: BinOp) -> Kind
    ensures { result ≡ operand_kind_of op }
{
    match op {
        BinOp::And | BinOp::Or => Kind::Logical,
        BinOp::Add | BinOp::Sub | BinOp::Mul | BinOp::Div | BinOp::Rem | BinOp::Cmp(_) => {
            Kind::Numeric
        }
    }
}

/// Whether an expression is a number or a truth. What is broken is a number.
pub fn kind_of(body: &Body, locals: &Locals, expr: &Expr) -> Kind
    ensures { result ≡ kind_in (scope_of body.now locals.now) expr.now }
{
    match expr {
        Expr::Truth { .. } => Kind::Logical,
        Expr::Local { name } => match body.part {
            Part::Post => Kind::Numeric,
            Part::Statements | Part::Test | Part::Amount => {
                match find_local(locals, &name.text) {
                    None => Kind::Numeric,
                    Some(local) => local.kind,
                }
            }
        },
        Expr::Not { .. } => Kind::Logical,
        Expr::Binary { op, .. } => result_kind(*op),
        Expr::Number { .. } => Kind::Numeric,
        Expr::Field { .. } => Kind::Numeric,
        Expr::Call { .. } => Kind::Numeric,
        Expr::Random { .. } => Kind::Numeric,
        Expr::Neg { .. } => Kind::Numeric,
    }
}

/// Notes an expression that is not of the wanted kind.
fn want(found: &mut Option<Finding>, wanted: Kind, at: &Site<'_>, expr: &Expr)
    ensures { found.new ≡ noted found.old (wants wanted (scope_at at.now) expr.now) }
{
    let kind = kind_of(at.body, at.locals, expr);
    note_unwanted(found, wanted, kind, place_of(expr));
}

fn note_unwanted(found: &mut Option<Finding>, wanted: Kind, kind: Kind, place: Place)
    ensures { found.new ≡ noted found.old (unwanted wanted kind place) }
{
    match wanted {
        Kind::Numeric => match kind {
            Kind::Numeric => {}
            Kind::Logical => note(found, TypeKind::WantsNumber, place),
        },
        Kind::Logical => match kind {
            Kind::Numeric => note(found, TypeKind::WantsTruth, place),
            Kind::Logical => {}
        },
    }
}

/// Checks a number. One out of range is 0.
pub fn check_number(found: &mut Option<Finding>, value: u64, place: Place) -> Num
    ensures number { result ≡ pos (within_or_zero 1000000000000 value) }
    ensures found { found.new ≡ noted found.old (fault_unless (nat_le value 1000000000000) LiteralRange place) }
{
    let number = if value <= 1_000_000_000_000 {
        Num::new(value as i64)
    } else {
        None
    };
    note_unless(found, number.is_some(), TypeKind::LiteralRange, place);
    number.unwrap_or(Num::zero())
}

fn check_index(found: &mut Option<Finding>, index: u64, place: Place) -> u16
    ensures index { result ≡ within_or_zero RANDOM_INDEX_MAX index }
    ensures found { found.new ≡ noted found.old (fault_unless (nat_le index RANDOM_INDEX_MAX) LiteralRange place) }
{
    if index <= RANDOM_INDEX_MAX {
        index as u16
    } else {
        note(found, TypeKind::LiteralRange, place);
        0
    }
}

/// Notes the name of an attribute that no earlier item declares.
pub fn note_undeclared(found: &mut Option<Finding>, name: AttrName, place: Place)
    ensures { found.new ≡ noted found.old (undeclared_faults name place) }
{
    match name {
        AttrName::Later => note(found, TypeKind::UsedBeforeDefined, place),
        AttrName::Unknown => note(found, TypeKind::UnknownName, place),
        AttrName::Key | AttrName::Const(_) | AttrName::Effect(_) => {}
    }
}

/// Checks the name of an attribute that is read behind a dot or of the scanned row.
pub fn check_dotted(found: &mut Option<Finding>, name: AttrName, place: Place) -> Attr
    ensures attr { result ≡ attr_of name }
    ensures found { found.new ≡ noted found.old (dotted_faults name place) }
{
    note_undeclared(found, name, place);
    match name {
        AttrName::Const(number) => Attr::Const(number),
        AttrName::Effect(_) => {
            note(found, TypeKind::EffectRead, place);
            Attr::Key
        }
        AttrName::Key | AttrName::Later | AttrName::Unknown => Attr::Key,
    }
}

/// What reads an attribute by its bare name, in `post`.
fn read_bare(name: AttrName) -> TExpr
    ensures { result ≡ bare_of name }
{
    match name {
        AttrName::Const(number) => TExpr::Unit(Attr::Const(number)),
        AttrName::Effect(number) => TExpr::Combined(number),
        AttrName::Key | AttrName::Later | AttrName::Unknown => TExpr::Unit(Attr::Key),
    }
}

fn check_local(found: &mut Option<Finding>, locals: &Locals, name: &Name) -> TExpr
    ensures made { result ≡ slot_of (find_local_of name.now.text locals.now) }
    ensures found { found.new ≡ noted found.old (local_faults (find_local_of name.now.text locals.now) name.now.place) }
{
    match find_local(locals, &name.text) {
        None => {
            note(found, TypeKind::UnknownName, name.place);
            TExpr::Number(Num::zero())
        }
        Some(local) => TExpr::Slot(local.slot),
    }
}

/// Checks a name that stands alone.
fn check_name(at: &Site<'_>, name: &Name, found: &mut Option<Finding>) -> Result<TExpr, Memory>
    ensures made { let s = scope_at at.now in IfOk result (λ e. e ≡ named s.part (attribute_of s.all s.earlier name.now.text) (find_local_of name.now.text s.locals)) }
    ensures found { let s = scope_at at.now in OnOk result (found.new ≡ noted found.old (name_faults s.part (attribute_of s.all s.earlier name.now.text) (find_local_of name.now.text s.locals) name.now.place)) }
{
    match at.body.part {
        Part::Post => {
            let attr = attribute(at.body.all, at.body.earlier, &name.text)?;
            note_undeclared(found, attr, name.place);
            Ok(read_bare(attr))
        }
        Part::Statements => Ok(check_local(found, at.locals, name)),
        Part::Test => Ok(check_local(found, at.locals, name)),
        Part::Amount => Ok(check_local(found, at.locals, name)),
    }
}

fn is_row(body: &Body, name: &Text) -> bool
    ensures { result ≡ is_row_of body.now.part body.now.unit.now body.now.target.now name.now }
{
    match body.part {
        Part::Post => false,
        Part::Amount => is_same(name, body.unit) || is_same(name, body.target),
        Part::Statements => is_same(name, body.unit),
        Part::Test => is_same(name, body.unit),
    }
}

/// Checks an attribute of the unit or of the scanned row.
fn check_field(
    body: &Body,
    of: &Name,
    attr: &Name,
    found: &mut Option<Finding>,
) -> Result<TExpr, Memory>
    ensures made { IfOk result (λ e. e ≡ read_of (bytes_eq of.now.text body.now.unit.now) (attr_of (attribute_of body.now.all.now body.now.earlier.now attr.now.text))) }
    ensures found { OnOk result (found.new ≡ noted found.old (fault_unless (is_row_of body.now.part body.now.unit.now body.now.target.now of.now.text) UnknownName of.now.place ++ dotted_faults (attribute_of body.now.all.now body.now.earlier.now attr.now.text) attr.now.place)) }
{
    note_unless(
        found,
        is_row(body, &of.text),
        TypeKind::UnknownName,
        of.place,
    );
    let name = attribute(body.all, body.earlier, &attr.text)?;
    let attr = check_dotted(found, name, attr.place);
    if is_same(&of.text, body.unit) {
        Ok(TExpr::Unit(attr))
    } else {
        Ok(TExpr::Target(attr))
    }
}

/// Checks the name of a definition that is given so many arguments.
fn check_callee(found: &mut Option<Finding>, callee: Callee, args: usize, place: Place) -> u32
    ensures number { result ≡ number_of_callee callee }
    ensures found { found.new ≡ noted found.old (callee_faults args place callee) }
{
    match callee {
        Callee::Known { number, params } => {
            note_unless(found, args == params, TypeKind::WrongCount, place);
            number
        }
        Callee::Later => {
            note(found, TypeKind::UsedBeforeDefined, place);
            0
        }
        Callee::Unknown => {
            note(found, TypeKind::UnknownName, place);
            0
        }
    }
}

fn check_call_in(
    found: &mut Option<Finding>,
    part: Part,
    callee: Callee,
    args: usize,
    place: Place,
) -> u32
    ensures number { result ≡ number_of_callee callee }
    ensures found { found.new ≡ noted found.old (call_faults_in part callee args place) }
{
    match part {
        Part::Statements => check_callee(found, callee, args, place),
        Part::Test | Part::Amount | Part::Post => {
            note(found, TypeKind::UnknownName, place);
            match callee {
                Callee::Known { number, .. } => number,
                Callee::Later => 0,
                Callee::Unknown => 0,
            }
        }
    }
}

/// Checks the names of a call of an aggregate.
fn check_call(
    body: &Body,
    name: &Name,
    unit: &Name,
    args: usize,
    found: &mut Option<Finding>,
) -> Result<u32, Memory>
    ensures number { IfOk result (λ n. n ≡ number_of_callee (callee_of body.now.all.now.aggs body.now.earlier.now.aggs name.now.text)) }
    ensures found { OnOk result (found.new ≡ noted found.old (call_faults_in body.now.part (callee_of body.now.all.now.aggs body.now.earlier.now.aggs name.now.text) args name.now.place ++ fault_unless (bytes_eq unit.now.text body.now.unit.now) UnknownName unit.now.place)) }
{
    let callee = find_callee(&body.all.aggs, &body.earlier.aggs, &name.text)?;
    let number = check_call_in(found, body.part, callee, args, name.place);
    note_unless(
        found,
        is_same(&unit.text, body.unit),
        TypeKind::UnknownName,
        unit.place,
    );
    Ok(number)
}

/// An operation on two operands.
fn operation(op: BinOp, left: Boxed<TExpr>, right: Boxed<TExpr>, place: Place) -> TExpr
    ensures { result ≡ Binary op left right place }
{
    TExpr::Binary {
        op,
        left,
        right,
        place,
    }
}

/// Checks an expression, and resolves its names.
#[cycle(expressions)]
#[tactic(auto, using(crate::proofs::Equations::expression_equations))]
pub fn check_expr(at: &Site<'_>, expr: &Expr, found: &mut Option<Finding>) -> Result<TExpr, Memory>
    ensures made { IfOk result (λ e. e ≡ typed (scope_at at.now) expr.now) }
    ensures found { OnOk result (found.new ≡ noted found.old (faults (scope_at at.now) expr.now)) }
{
    match expr {
        Expr::Number { value, place } => Ok(TExpr::Number(check_number(found, *value, *place))),
        Expr::Truth { value, .. } => Ok(TExpr::Truth(*value)),
        Expr::Local { name } => check_name(at, name, found),
        Expr::Field { of, attr } => check_field(at.body, of, attr, found),
        Expr::Call { name, unit, args } => {
            let agg = check_call(at.body, name, unit, args.len(), found)?;
            let args = check_numbers(at, args.as_slice(), found)?;
            Ok(TExpr::Agg(AggUse {
                agg,
                args,
                place: name.place,
            }))
        }
        Expr::Random {
            index,
            index_place,
            ..
        } => Ok(TExpr::Random(check_index(found, *index, *index_place))),
        Expr::Neg { inner, .. } => {
            let inner = check_operand(at, Kind::Numeric, inner, found)?;
            Ok(TExpr::Neg(inner))
        }
        Expr::Not { inner, .. } => {
            let inner = check_operand(at, Kind::Logical, inner, found)?;
            Ok(TExpr::Not(inner))
        }
        Expr::Binary {
            op,
            left,
            right,
            place,
        } => {
            let wanted = operand_kind(*op);
            let left = check_operand(at, wanted, left, found)?;
            let right = check_operand(at, wanted, right, found)?;
            Ok(operation(*op, left, right, *place))
        }
    }
}

/// Checks an operand of the wanted kind.
#[cycle(expressions)]
#[tactic(auto, using(crate::proofs::Equations::expression_equations))]
fn check_operand(
    at: &Site<'_>,
    wanted: Kind,
    operand: &Boxed<Expr>,
    found: &mut Option<Finding>,
) -> Result<Boxed<TExpr>, Memory>
    ensures made { IfOk result (λ e. e ≡ typed (scope_at at.now) operand.now) }
    ensures found { OnOk result (found.new ≡ noted found.old (operand_faults wanted (scope_at at.now) operand.now)) }
{
    let made = check_wanted(at, wanted, operand.get(), found)?;
    Boxed::new(at.alloc, made)
}

/// Checks an expression that stands where one of this kind is wanted.
#[cycle(expressions)]
#[tactic(auto, using(crate::proofs::Equations::expression_equations))]
pub fn check_wanted(
    at: &Site<'_>,
    wanted: Kind,
    expr: &Expr,
    found: &mut Option<Finding>,
) -> Result<TExpr, Memory>
    ensures made { IfOk result (λ e. e ≡ typed (scope_at at.now) expr.now) }
    ensures found { OnOk result (found.new ≡ noted found.old (operand_faults wanted (scope_at at.now) expr.now)) }
{
    let made = check_expr(at, expr, found)?;
    want(found, wanted, at, expr);
    Ok(made)
}

/// Checks expressions that are to be numbers.
#[cycle(expressions)]
#[tactic(auto, using(crate::proofs::Equations::expression_equations))]
pub fn check_numbers(
    at: &Site<'_>,
    exprs: &[Expr],
    found: &mut Option<Finding>,
) -> Result<List<TExpr>, Memory>
    ensures made { IfOk result (λ es. es ≡ map (typed (scope_at at.now)) exprs.now) }
    ensures found { OnOk result (found.new ≡ noted found.old (numbers_faults (scope_at at.now) exprs.now)) }
{
    let mut made = List::new(at.alloc);
    for expr in exprs {
        made.push(check_wanted(at, Kind::Numeric, expr, found)?)?;
    }
    Ok(made)
}
