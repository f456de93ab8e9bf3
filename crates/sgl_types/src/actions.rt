//! Checks actions: their clauses, the writes of each clause, and the priorities of writes.
#![tactic(auto, using(crate::proofs::Equations::joining))]

ghost use Rattle.std.specs.Prelude.{◌≡◌, map, IfOk, OnOk};
ghost use Rattle.sgl_types.specs.Findings.{noted};
ghost use Rattle.sgl_types.specs.Items.{setting_of, param_locals as locals_from, priority_faults, write_faults, clause_faults, clauses_faults, action_faults};
ghost use Rattle.sgl_types.specs.Declarations.{after_unit as params_behind};
ghost use Rattle.sgl_types.specs.Rules.{by_missing, by_unwanted};
ghost use Rattle.sgl_types.specs.Scope.{scope_at};
ghost use Rattle.sgl_types.specs.TypedItems.{typed_priority, typed_write, typed_clause, typed_action};

use crate::bodies::{Body, Context, Locals, Part, Site};
use crate::declared::{more, short};
use crate::each::{Check, check_each};
use crate::expressions::check_wanted;
use crate::finding::{Finding, TypeKind, note, note_if};
use crate::parameters::{after_unit, check_definition, param_locals, unit_of};
use crate::row_tests::check_row;
use crate::targets::{Aim, Target};
use sgl_tree::{Expr, Name, OnClause, Write};
use sgl_typed::{Kind, TAction, TExpr, TOn, TWrite};
use sgl_values::{CLAUSES_MAX, List, Memory, Place, Tag};

/// Notes the attribute of a write that lacks a priority.
fn note_by_missing(found: &mut Option<Finding>, tag: Option<Tag>, place: Place)
    ensures { found.new ≡ noted found.old (by_missing tag place) }
{
    match tag {
        Some(Tag::Top) => note(found, TypeKind::ByMissing, place),
        Some(Tag::Sum | Tag::Min | Tag::Max) | None => {}
    }
}

/// Notes the word `by` where the attribute has no priorities.
fn note_by_unwanted(found: &mut Option<Finding>, tag: Option<Tag>, word: Place)
    ensures { found.new ≡ noted found.old (by_unwanted tag word) }
{
    match tag {
        Some(Tag::Sum | Tag::Min | Tag::Max) => note(found, TypeKind::ByUnwanted, word),
        Some(Tag::Top) | None => {}
    }
}

/// Checks the priority of a write. The attribute stands at this place, and has this tag where it is
/// an effect attribute.
fn check_priority(
    at: &Site<'_>,
    tag: Option<Tag>,
    place: Place,
    by: &Option<(Place, Expr)>,
    found: &mut Option<Finding>,
) -> Result<Option<(Place, TExpr)>, Memory>
    ensures made { IfOk result (λ m. m ≡ typed_priority (scope_at at.now) by.now) }
    ensures found { OnOk result (found.new ≡ noted found.old (priority_faults (scope_at at.now) tag place by.now)) }
{
    match by {
        None => {
            note_by_missing(found, tag, place);
            Ok(None)
        }
        Some((word, priority)) => {
            note_by_unwanted(found, tag, *word);
            let made = check_wanted(at, Kind::Numeric, priority, found)?;
            Ok(Some((*word, made)))
        }
    }
}

impl Check for Write {
    type Made = TWrite;

    ghost typed = { typed_write };

    ghost faults = { write_faults };

    fn check(&self, at: &Site<'_>, found: &mut Option<Finding>) -> Result<TWrite, Memory> {
        let Aim { number, tag } = Target::Effect.check(at, &self.attr, found)?;
        let amount = check_wanted(at, Kind::Numeric, &self.value, found)?;
        let by = check_priority(at, tag, self.attr.place, &self.by, found)?;
        Ok(TWrite {
            effect: number,
            amount,
            by,
        })
    }
}

/// Checks a clause of an action with these parameters.
fn check_clause(
    context: &Context<'_>,
    params: &[Name],
    locals: &Locals,
    clause: &OnClause,
    found: &mut Option<Finding>,
) -> Result<TOn, Memory>
    requires { locals.now ≡ locals_from 0 (params_behind params.now) }
    ensures made { IfOk result (λ m. m ≡ typed_clause (setting_of context.now) params.now clause.now) }
    ensures found { OnOk result (found.new ≡ noted found.old (clause_faults (setting_of context.now) params.now clause.now)) }
{
    let tested = Body {
        all: context.all,
        earlier: context.earlier,
        part: Part::Test,
        unit: unit_of(params),
        target: clause.row.text.as_str(),
    };
    let written = Body {
        part: Part::Amount,
        ..tested
    };
    let tests_at = Site {
        alloc: context.alloc,
        body: &tested,
        locals,
    };
    let writes_at = Site {
        body: &written,
        ..tests_at
    };
    check_row(&tests_at, &clause.row, found);
    let tests = check_each(&tests_at, clause.tests.as_slice(), found)?;
    let writes = check_each(&writes_at, clause.writes.as_slice(), found)?;
    Ok(TOn { tests, writes })
}

/// Checks the clauses of an action. So many stand in the actions before it.
fn check_clauses(
    context: &Context<'_>,
    params: &[Name],
    locals: &Locals,
    ons: &[OnClause],
    found: &mut Option<Finding>,
) -> Result<List<TOn>, Memory>
    requires { locals.now ≡ locals_from 0 (params_behind params.now) }
    ensures made { IfOk result (λ ms. ms ≡ map (typed_clause (setting_of context.now) params.now) ons.now) }
    ensures found { OnOk result (found.new ≡ noted found.old (clauses_faults (setting_of context.now) params.now context.now.earlier.now.ons ons.now)) }
{
    let mut before = context.earlier.ons;
    let mut made = List::new(context.alloc);
    for clause in ons {
        note_if(
            found,
            before == CLAUSES_MAX as usize,
            TypeKind::TooMany,
            clause.place,
        );
        made.push(check_clause(context, params, locals, clause, found)?)?;
        before = more(before, 1)?;
    }
    Ok(made)
}

/// Checks an action, and resolves its names.
pub fn check_action(
    context: &Context<'_>,
    name: &Name,
    params: &[Name],
    ons: &[OnClause],
    found: &mut Option<Finding>,
) -> Result<TAction, Memory>
    ensures made { IfOk result (λ m. m ≡ typed_action (setting_of context.now) name.now params.now ons.now) }
    ensures found { OnOk result (found.new ≡ noted found.old (action_faults (setting_of context.now) name.now params.now ons.now)) }
{
    check_definition(context, name, params, found)?;
    let behind = after_unit(params);
    let locals = param_locals(context.alloc, 0, behind)?;
    let ons = check_clauses(context, params, &locals, ons, found)?;
    Ok(TAction {
        name: name.text.clone()?,
        params: short(behind.len())?,
        ons,
    })
}
