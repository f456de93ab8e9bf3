//! Checks blocks and their statements, and gives each let its slot.
ghost use Rattle.std.specs.Prelude.{◌≡◌, ◌++◌, ◌∷◌, [], ◌+◌, map, IfOk, OnOk};
ghost use Rattle.sgl_types.specs.Findings.{noted};
ghost use Rattle.sgl_types.specs.Scope.{scope_of};
ghost use Rattle.sgl_types.specs.Faults.{operand_faults, kind_of as kind_in, place_of as place_in};
ghost use Rattle.sgl_typed.specs.declared.script.Kind.TheVariants.{Logical};
ghost use Rattle.sgl_typed.specs.declared.script.TStmt.TheVariants.{Let};
ghost use Rattle.sgl_types.specs.Typed.{typed};
ghost use Rattle.sgl_types.specs.Statements.{standing, behind, lets, is_local as is_local_name, performed_of, performed_faults, performing as performing_of, let_faults, perform_faults, statement_faults, statements_faults, typed_statement, typed_statements};

use crate::bodies::{Body, Local, Locals, Site, find_local};
use crate::declared::{Declared, find_definition, short};
use crate::expressions::{check_expr, check_numbers, check_wanted, kind_of, place_of};
use crate::finding::{Finding, TypeKind, note, note_if, note_unless};
use crate::names::is_same;
use sgl_tree::{Expr, Name, Stmt};
use sgl_typed::{Kind, TExpr, TStmt};
use sgl_values::{List, Memory, Place, Text};
use std::alloc::Global;

/// What the name behind `perform` stands for.
#[derive(Clone, Copy, Debug, PartialEq, Eq)]
pub enum Performed {
    Action { number: u32, params: usize },
    Routine { number: u32, params: usize },
    Later,
    Unknown,
}

/// The locals in scope, the number of the next slot, and the first of what was found.
#[derive(Drop)]
pub struct Progress {
    pub locals: Locals,
    pub next: u32,
    pub found: Option<Finding>,
}

fn find_performed(all: &Declared, earlier: &Declared, name: &Text) -> Result<Performed, Memory>
    ensures { IfOk result (λ p. p ≡ performed_of all.now earlier.now name.now) }
{
    if let Some((at, params)) = find_definition(&earlier.actions, name) {
        return Ok(Performed::Action {
            number: short(at)?,
            params,
        });
    }
    if let Some((at, params)) = find_definition(&earlier.routines, name) {
        return Ok(Performed::Routine {
            number: short(at)?,
            params,
        });
    }
    if all.may_be_performed(name) {
        Ok(Performed::Later)
    } else {
        Ok(Performed::Unknown)
    }
}

fn check_performed(found: &mut Option<Finding>, performed: Performed, args: usize, place: Place)
    ensures { found.new ≡ noted found.old (performed_faults args place performed) }
{
    match performed {
        Performed::Action { params, .. } => {
            note_unless(found, args == params, TypeKind::WrongCount, place)
        }
        Performed::Routine { params, .. } => {
            note_unless(found, args == params, TypeKind::WrongCount, place)
        }
        Performed::Later => note(found, TypeKind::UsedBeforeDefined, place),
        Performed::Unknown => note(found, TypeKind::UnknownName, place),
    }
}

fn performing(performed: Performed, args: List<TExpr>, places: List<Place>, place: Place) -> TStmt
    ensures { result ≡ performing_of performed args places place }
{
    match performed {
        Performed::Action { number, .. } => TStmt::Act {
            action: number,
            args,
            place,
        },
        Performed::Routine { number, .. } => TStmt::Call {
            routine: number,
            args,
            places,
        },
        Performed::Later => TStmt::Act {
            action: 0,
            args,
            place,
        },
        Performed::Unknown => TStmt::Act {
            action: 0,
            args,
            place,
        },
    }
}

/// The places of expressions.
fn places_of(alloc: Global, exprs: &[Expr]) -> Result<List<Place>, Memory>
    ensures { IfOk result (λ places. places ≡ map place_in exprs.now) }
{
    let mut places = List::new(alloc);
    for expr in exprs {
        places.push(place_of(expr))?;
    }
    Ok(places)
}

/// Whether a name is that of the unit, of a parameter or of a let in scope.
pub fn is_local(body: &Body, locals: &Locals, name: &Text) -> bool
    ensures { result ≡ is_local_name (scope_of body.now locals.now) name.now }
{
    is_same(name, body.unit) || find_local(locals, name).is_some()
}

/// Checks a let, and brings its name into scope.
#[tactic(auto, using(crate::proofs::Equations::joining))]
fn check_let(
    alloc: Global,
    body: &Body,
    name: &Name,
    value: &Expr,
    progress: &mut Progress,
) -> Result<TStmt, Memory>
    ensures made { IfOk result (λ m. m ≡ Let progress.old.next (typed (scope_of body.now progress.old.locals) value.now) (place_in value.now)) }
    ensures locals { OnOk result (progress.new.locals ≡ progress.old.locals ++ record { name = name.now.text; slot = progress.old.next; kind = kind_in (scope_of body.now progress.old.locals) value.now } ∷ []) }
    ensures next { OnOk result (progress.new.next ≡ 1 + progress.old.next) }
    ensures found { OnOk result (progress.new.found ≡ noted progress.old.found (let_faults (standing body.now progress.old.locals progress.old.next) name.now value.now)) }
{
    let slot = progress.next;
    let at = Site {
        alloc,
        body,
        locals: &progress.locals,
    };
    let made = check_expr(&at, value, &mut progress.found)?;
    let is_twice = is_local(body, &progress.locals, &name.text);
    note_if(&mut progress.found, is_twice, TypeKind::Twice, name.place);
    let kind = kind_of(body, &progress.locals, value);
    progress.next = slot.checked_add(1).ok_or(Memory)?;
    progress.locals.push(Local {
        name: name.text.clone()?,
        slot,
        kind,
    })?;
    Ok(TStmt::Let {
        slot,
        value: made,
        place: place_of(value),
    })
}

/// Checks what is performed.
#[tactic(auto, using(crate::proofs::Equations::joining))]
fn check_perform(
    alloc: Global,
    body: &Body,
    place: Place,
    name: &Name,
    unit: &Name,
    args: &[Expr],
    progress: &mut Progress,
) -> Result<TStmt, Memory>
    ensures made { IfOk result (λ m. m ≡ performing_of (performed_of body.now.all.now body.now.earlier.now name.now.text) (map (typed (scope_of body.now progress.old.locals)) args.now) (map place_in args.now) place) }
    ensures locals { OnOk result (progress.new.locals ≡ progress.old.locals) }
    ensures next { OnOk result (progress.new.next ≡ progress.old.next) }
    ensures found { OnOk result (progress.new.found ≡ noted progress.old.found (perform_faults (standing body.now progress.old.locals progress.old.next) name.now unit.now args.now)) }
{
    let performed = find_performed(body.all, body.earlier, &name.text)?;
    check_performed(&mut progress.found, performed, args.len(), name.place);
    note_unless(
        &mut progress.found,
        is_same(&unit.text, body.unit),
        TypeKind::UnknownName,
        unit.place,
    );
    let places = places_of(alloc, args)?;
    let at = Site {
        alloc,
        body,
        locals: &progress.locals,
    };
    let args = check_numbers(&at, args, &mut progress.found)?;
    Ok(performing(performed, args, places, place))
}

/// Checks the condition of an `if`.
#[tactic(auto, using(crate::proofs::Equations::joining))]
fn check_condition(
    alloc: Global,
    body: &Body,
    cond: &Expr,
    progress: &mut Progress,
) -> Result<TExpr, Memory>
    ensures made { IfOk result (λ e. e ≡ typed (scope_of body.now progress.old.locals) cond.now) }
    ensures locals { OnOk result (progress.new.locals ≡ progress.old.locals) }
    ensures next { OnOk result (progress.new.next ≡ progress.old.next) }
    ensures found { OnOk result (progress.new.found ≡ noted progress.old.found (operand_faults Logical (scope_of body.now progress.old.locals) cond.now)) }
{
    let at = Site {
        alloc,
        body,
        locals: &progress.locals,
    };
    check_wanted(&at, Kind::Logical, cond, &mut progress.found)
}

/// Checks a statement, and resolves its names.
#[cycle(statements)]
pub fn check_statement(
    alloc: Global,
    body: &Body,
    statement: &Stmt,
    progress: &mut Progress,
) -> Result<TStmt, Memory>
    ensures made { IfOk result (λ m. m ≡ typed_statement statement.now (standing body.now progress.old.locals progress.old.next)) }
    ensures behind { OnOk result (standing body.now progress.new.locals progress.new.next ≡ behind statement.now (standing body.now progress.old.locals progress.old.next)) }
    ensures found { OnOk result (progress.new.found ≡ noted progress.old.found (statement_faults statement.now (standing body.now progress.old.locals progress.old.next))) }
{
    match statement {
        Stmt::Let { name, value } => check_let(alloc, body, name, value, progress),
        Stmt::If { cond, yes, no } => {
            let made = check_condition(alloc, body, cond, progress)?;
            let taken = check_block(alloc, body, yes.as_slice(), progress)?;
            let other = check_block(alloc, body, no.as_slice(), progress)?;
            Ok(TStmt::If {
                cond: made,
                place: place_of(cond),
                yes: taken,
                no: other,
            })
        }
        Stmt::Perform {
            place,
            name,
            unit,
            args,
        } => check_perform(alloc, body, *place, name, unit, args.as_slice(), progress),
    }
}

/// Checks the statements of a block. The names of its lets go out of scope at its end.
#[cycle(statements)]
pub fn check_block(
    alloc: Global,
    body: &Body,
    statements: &[Stmt],
    progress: &mut Progress,
) -> Result<List<TStmt>, Memory>
    ensures made { IfOk result (λ ms. ms ≡ typed_statements statements.now (standing body.now progress.old.locals progress.old.next)) }
    ensures locals { OnOk result (progress.new.locals ≡ progress.old.locals) }
    ensures next { OnOk result (progress.new.next ≡ lets statements.now + progress.old.next) }
    ensures found { OnOk result (progress.new.found ≡ noted progress.old.found (statements_faults statements.now (standing body.now progress.old.locals progress.old.next))) }
{
    let in_scope = progress.locals.len();
    let mut made = List::new(alloc);
    for statement in statements {
        made.push(check_statement(alloc, body, statement, progress)?)?;
    }
    progress.locals.truncate(in_scope);
    Ok(made)
}
