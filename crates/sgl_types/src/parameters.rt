//! Checks the parameters of definitions, and gives them their slots.
ghost use Rattle.std.specs.Prelude.{◌≡◌, ◌++◌, ◌∷◌, [], map, slice_get, IfOk, OnOk};
ghost use Rattle.sgl_types.specs.Declarations.{unit_of as unit_name, after_unit as params_behind};
ghost use Rattle.sgl_types.specs.Findings.{noted};
ghost use Rattle.sgl_types.specs.Rules.{twice};
ghost use Rattle.sgl_types.specs.Items.{is_in, repeated, at_name, params_faults, param_locals as locals_from, definition_faults, setting_of};

use crate::bodies::{Context, Local, Locals};
use crate::finding::{Finding, TypeKind, note, note_if};
use crate::names::Names;
use sgl_tree::Name;
use sgl_typed::Kind;
use sgl_values::{List, Memory, PARAMS_MAX};
use std::alloc::Global;

/// The name of the unit, which is the first of the parameters.
pub fn unit_of(params: &[Name]) -> &str
    ensures { result.now ≡ unit_name params.now }
{
    match params {
        [] => "",
        [unit, ..] => unit.text.as_str(),
    }
}

/// The parameters behind the unit.
pub fn after_unit(params: &[Name]) -> &[Name]
    ensures { result.now ≡ params_behind params.now }
{
    match params {
        [] => params,
        [_, rest @ ..] => rest,
    }
}

/// Notes a name that was seen before, and puts it behind the names that were seen.
#[tactic(auto, using(crate::proofs::Equations::joining))]
pub fn note_seen(seen: &mut Names, name: &Name, found: &mut Option<Finding>) -> Result<(), Memory>
    ensures seen { OnOk result (seen.new ≡ seen.old ++ name.now.text ∷ []) }
    ensures found { OnOk result (found.new ≡ noted found.old (twice (is_in name.now.text seen.old) name.now.place)) }
{
    let is_twice = seen.position(&name.text).is_some();
    note_if(found, is_twice, TypeKind::Twice, name.place);
    seen.push(name.text.clone()?)
}

/// Notes each name that equals an earlier one.
#[tactic(auto, using(crate::proofs::Equations::joining))]
fn check_repeated(alloc: Global, names: &[Name], found: &mut Option<Finding>) -> Result<(), Memory>
    ensures { OnOk result (found.new ≡ noted found.old (repeated [] names.now)) }
{
    let mut seen = Names::new(alloc);
    for name in names {
        note_seen(&mut seen, name, found)?;
    }
    Ok(())
}

// With the unit as the first, the first parameter that is one too many has this number.
const FIRST_EXTRA: usize = 1 + PARAMS_MAX;

/// Notes the first parameter behind the unit that is one too many.
fn note_extra(found: &mut Option<Finding>, params: &[Name])
    ensures { found.new ≡ noted found.old (at_name (slice_get params.now FIRST_EXTRA)) }
{
    if params.len() > FIRST_EXTRA {
        note(found, TypeKind::TooMany, params[FIRST_EXTRA].place);
    }
}

/// Checks that the parameters have names of their own, and that they are not too many.
#[tactic(auto, using(crate::proofs::Equations::joining))]
fn check_params(alloc: Global, params: &[Name], found: &mut Option<Finding>) -> Result<(), Memory>
    ensures { OnOk result (found.new ≡ noted found.old (params_faults params.now)) }
{
    check_repeated(alloc, params, found)?;
    note_extra(found, params);
    Ok(())
}

/// Checks the name and the parameters of a definition.
#[tactic(auto, using(crate::proofs::Equations::joining))]
pub fn check_definition(
    context: &Context<'_>,
    name: &Name,
    params: &[Name],
    found: &mut Option<Finding>,
) -> Result<(), Memory>
    ensures { OnOk result (found.new ≡ noted found.old (definition_faults (setting_of context.now) name.now params.now)) }
{
    let is_twice = context.earlier.defines(&name.text);
    note_if(found, is_twice, TypeKind::Twice, name.place);
    check_params(context.alloc, params, found)
}

/// Parameters as locals, which have the slots from this one on.
pub fn param_locals(alloc: Global, slot: u32, params: &[Name]) -> Result<Locals, Memory>
    ensures { IfOk result (λ locals. locals ≡ locals_from slot params.now) }
{
    let mut locals = Locals::new(alloc);
    let mut slot = slot;
    for name in params {
        locals.push(Local {
            name: name.text.clone()?,
            slot,
            kind: Kind::Numeric,
        })?;
        slot = slot.checked_add(1).ok_or(Memory)?;
    }
    Ok(locals)
}

/// The slots of parameters.
pub fn param_slots(alloc: Global, slot: u32, params: &[Name]) -> Result<List<u32>, Memory>
    ensures { IfOk result (λ slots. slots ≡ map (λ local. local.slot) (locals_from slot params.now)) }
{
    let mut slots = List::new(alloc);
    let mut slot = slot;
    for _name in params {
        slots.push(slot)?;
        slot = slot.checked_add(1).ok_or(Memory)?;
    }
    Ok(slots)
}
