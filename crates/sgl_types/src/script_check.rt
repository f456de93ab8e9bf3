//! The whole check, from the tree of a script to the typed script or its first fault.
ghost use Rattle.std.specs.Prelude.{◌≡◌, [], true, IfOk, IfErr, OnOk};
ghost use Rattle.sgl_typed.specs.SchemaForm.{attributes_fit};
ghost use Rattle.sgl_typed.specs.WellFormed.{is_well_formed};
ghost use Rattle.sgl_typed.specs.declared.schema.Schema.{Schema as Attributes};
ghost use Rattle.sgl_types.specs.Items.{type_faults};
ghost use Rattle.sgl_tree.specs.Plain.{HasShortNames, HasClauses};
ghost use Rattle.sgl_types.specs.Refusal.{IsRefusal};
ghost use Rattle.sgl_types.specs.TypedItems.{IsTyped};
ghost use Rattle.sgl_types.specs.Walk.{walk as walk_of};

use crate::declared::Declared;
use crate::finding::{TypeKind, note_unless};
use crate::items::{Checking, Typing};
use crate::type_fault::TypeFault;
use sgl_tree::Script;
use sgl_typed::{Schema, TScript};
use sgl_values::Memory;
use std::alloc::Global;

/// A typed script of parts that fit.
fn assemble(typing: Typing) -> TScript
    requires attributes { attributes_fit typing.earlier.consts typing.effects ≡ true }
    requires parts { (schema : Attributes) → schema.consts ≡ typing.earlier.consts → schema.effects ≡ typing.effects → is_well_formed schema typing.aggs typing.actions typing.routines typing.main typing.slots typing.rules typing.spawn typing.removal ≡ true }
    ensures consts { result.schema.consts ≡ typing.earlier.consts }
    ensures effects { result.schema.effects ≡ typing.effects }
    ensures aggs { result.aggs ≡ typing.aggs }
    ensures actions { result.actions ≡ typing.actions }
    ensures routines { result.routines ≡ typing.routines }
    ensures main { result.main ≡ typing.main }
    ensures slots { result.slots ≡ typing.slots }
    ensures rules { result.rules ≡ typing.rules }
    ensures spawn { result.spawn ≡ typing.spawn }
    ensures removal { result.removal ≡ typing.removal }
{
    let Typing {
        earlier,
        slots,
        effects,
        aggs,
        actions,
        routines,
        main,
        rules,
        spawn,
        removal,
        ..
    } = typing;
    TScript {
        schema: Schema {
            consts: earlier.into_consts(),
            effects,
        },
        aggs,
        actions,
        routines,
        main,
        slots,
        rules,
        spawn,
        removal,
    }
}

/// Walks over a script: what it is resolved to, and its first fault.
fn walk(alloc: Global, script: &Script) -> Result<Typing, Memory>
    ensures { IfOk result (λ t. t ≡ walk_of script.now) }
{
    let items = script.items.as_slice();
    let all = Declared::of(alloc, items)?;
    let mut checking = Checking::new(alloc, &all);
    checking.check_items(items)?;
    let Checking { typed, .. } = checking;
    let mut typing = typed;
    note_unless(
        &mut typing.found,
        all.has_main,
        TypeKind::NoMain,
        script.end,
    );
    Ok(typing)
}

/// Checks the type rules of a script, and resolves its names.
///
/// `Ok` comes exactly where the script breaks none. `At` is the first fault by its place, and of those at one place the
/// one of the least kind in the order of `TypeKind`. Every script that a text spells meets the conditions: its names are
/// tokens, of at most 31 bytes, and the grammar wants a clause in each action. Names are found by an index,
/// so the work is about linear in the script.
pub fn check(alloc: Global, script: &Script) -> Result<TScript, TypeFault>
    requires short_names { HasShortNames script.now }
    requires clauses { HasClauses script.now }
    ensures typed { IfOk result (λ t. IsTyped script.now t) }
    ensures none { OnOk result (type_faults script.now ≡ []) }
    ensures first { IfErr result (IsRefusal (type_faults script.now)) }
{
    let typing = walk(alloc, script)?;
    match typing.found {
        None => Ok(assemble(typing)),
        Some(finding) => Err(TypeFault::At {
            kind: finding.kind,
            place: finding.place,
        }),
    }
}
