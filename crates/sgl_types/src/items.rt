//! Checks the items of a script one by one, and gathers the parts of the typed script.
ghost use Rattle.std.specs.Prelude.{◌≡◌, ◌+◌, length, IfOk, OnOk};
ghost use Rattle.sgl_tree.specs.declared.item.Item.TheVariants.{Attr, Aggregate, Action, Routine, Main, Post};
ghost use Rattle.sgl_types.specs.Declarations.{after_unit as params_behind};
ghost use Rattle.sgl_types.specs.Findings.{noted};
ghost use Rattle.sgl_types.specs.Items.{setting, setting_of, is_full as is_full_of, attr_faults, routine_faults, main_faults};
ghost use Rattle.sgl_types.specs.Statements.{lets};
ghost use Rattle.sgl_types.specs.TypedItems.{literal_or_zero, typed_routine, typed_main};
ghost use Rattle.sgl_types.specs.Walk.{setting_at, with_checked, after_items};

use crate::actions::check_action;
use crate::aggregates::check_aggregate;
use crate::bodies::{Body, Context, Locals, Part};
use crate::declared::{Declared, is_key, short};
use crate::finding::{Finding, TypeKind, note_if};
use crate::literals::check_init;
use crate::parameters::{after_unit, check_definition, param_locals, param_slots, unit_of};
use crate::post_rules::check_post;
use crate::statements::{Progress, check_block};
use sgl_tree::{Expr, Fold, Item, Literal, Name, OnClause, Rule, Spawn, Stmt, Test};
use sgl_typed::{EffectAttr, TAction, TAgg, TExpr, TRoutine, TRule, TSpawn, TStmt};
use sgl_values::{CONSTS_MAX, EFFECTS_MAX, List, Memory, Num, Place, Tag};
use std::alloc::Global;

/// What was made and found behind some items: what they declare, the number of their slots, the parts of the typed
/// script, and the first fault.
#[derive(Drop)]
pub struct Typing {
    pub earlier: Declared,
    pub slots: u32,
    pub effects: List<EffectAttr>,
    pub aggs: List<TAgg>,
    pub actions: List<TAction>,
    pub routines: List<TRoutine>,
    pub main: List<TStmt>,
    pub rules: List<TRule>,
    pub spawn: Option<TSpawn>,
    pub removal: Option<TExpr>,
    pub found: Option<Finding>,
}

impl Typing {
    ghost use Rattle.sgl_types.specs.Walk.{nothing};

    /// Nothing.
    pub fn new(alloc: Global) -> Typing
        ensures { result ≡ nothing }
    {
        Typing {
            earlier: Declared::new(alloc),
            slots: 0,
            effects: List::new(alloc),
            aggs: List::new(alloc),
            actions: List::new(alloc),
            routines: List::new(alloc),
            main: List::new(alloc),
            rules: List::new(alloc),
            spawn: None,
            removal: None,
            found: None,
        }
    }
}

/// Whether there are as many attributes of a kind as may be.
fn is_full(earlier: &Declared, is_effect: bool) -> bool
    ensures { result ≡ is_full_of earlier.now is_effect }
{
    if is_effect {
        earlier.effects.len() == EFFECTS_MAX
    } else {
        earlier.consts.len() == CONSTS_MAX
    }
}

/// Checks an attribute, and answers its starting value.
#[tactic(auto, using(crate::proofs::Equations::joining))]
fn check_attr(
    context: &Context<'_>,
    name: &Name,
    is_effect: bool,
    init: &Option<Literal>,
    found: &mut Option<Finding>,
) -> Num
    ensures number { result ≡ literal_or_zero init.now }
    ensures found { found.new ≡ noted found.old (attr_faults (setting_of context.now) name.now is_effect init.now) }
{
    let is_twice = is_key(&name.text) || context.earlier.declares_attribute(&name.text);
    note_if(found, is_twice, TypeKind::Twice, name.place);
    let is_extra = is_full(context.earlier, is_effect);
    note_if(found, is_extra, TypeKind::TooMany, name.place);
    check_init(found, init)
}

/// The slot behind those of so many parameters.
fn slot_behind(params: usize, slots: u32) -> Result<u32, Memory>
    ensures { IfOk result (λ n. n ≡ params + slots) }
{
    short(params)?.checked_add(slots).ok_or(Memory)
}

/// Checks a routine, and resolves its names; with the number of the slots behind it.
#[tactic(auto, using(crate::proofs::Equations::joining))]
fn check_routine(
    context: &Context<'_>,
    name: &Name,
    params: &[Name],
    statements: &[Stmt],
    found: &mut Option<Finding>,
) -> Result<(TRoutine, u32), Memory>
    ensures made { IfOk result (λ m. m.0 ≡ typed_routine (setting_of context.now) params.now statements.now) }
    ensures slots { IfOk result (λ m. m.1 ≡ lets statements.now + (length (params_behind params.now) + context.now.slots)) }
    ensures found { OnOk result (found.new ≡ noted found.old (routine_faults (setting_of context.now) name.now params.now statements.now)) }
{
    check_definition(context, name, params, found)?;
    let behind = after_unit(params);
    let body = Body {
        all: context.all,
        earlier: context.earlier,
        part: Part::Statements,
        unit: unit_of(params),
        target: "",
    };
    let mut progress = Progress {
        locals: param_locals(context.alloc, context.slots, behind)?,
        next: slot_behind(behind.len(), context.slots)?,
        found: *found,
    };
    let made = check_block(context.alloc, &body, statements, &mut progress)?;
    *found = progress.found;
    let routine = TRoutine {
        params: param_slots(context.alloc, context.slots, behind)?,
        body: made,
    };
    Ok((routine, progress.next))
}

/// Checks `main`, and resolves its names; with the number of the slots behind it.
#[tactic(auto, using(crate::proofs::Equations::joining))]
fn check_main(
    context: &Context<'_>,
    place: Place,
    unit: &Name,
    statements: &[Stmt],
    found: &mut Option<Finding>,
) -> Result<(List<TStmt>, u32), Memory>
    ensures made { IfOk result (λ m. m.0 ≡ typed_main (setting_of context.now) unit.now statements.now) }
    ensures slots { IfOk result (λ m. m.1 ≡ lets statements.now + context.now.slots) }
    ensures found { OnOk result (found.new ≡ noted found.old (main_faults (setting_of context.now) place unit.now statements.now)) }
{
    note_if(found, context.earlier.has_main, TypeKind::TwoMains, place);
    let body = Body {
        all: context.all,
        earlier: context.earlier,
        part: Part::Statements,
        unit: unit.text.as_str(),
        target: "",
    };
    let mut progress = Progress {
        locals: Locals::new(context.alloc),
        next: context.slots,
        found: *found,
    };
    let made = check_block(context.alloc, &body, statements, &mut progress)?;
    *found = progress.found;
    Ok((made, progress.next))
}

/// Where an item stands behind what was made and found before it.
fn context_at<'t>(
    alloc: Global,
    all: &'t Declared,
    earlier: &'t Declared,
    slots: u32,
) -> Context<'t>
    ensures { setting_of result ≡ setting all.now earlier.now slots }
{
    Context {
        alloc,
        all,
        earlier,
        slots,
    }
}

/// The check of the items of a script, one by one: what the script declares, and what was made and found so far.
#[derive(Drop)]
pub struct Checking<'t> {
    alloc: Global,
    all: &'t Declared,
    pub typed: Typing,
}

impl Checking<'_> {
    ghost use Rattle.sgl_types.specs.Walk.{nothing};

    /// Before the first item of a script that declares all this.
    pub fn new(alloc: Global, all: &Declared) -> Checking<'_>
        ensures all { result.all.now ≡ all.now }
        ensures typed { result.typed ≡ nothing }
    {
        Checking {
            alloc,
            all,
            typed: Typing::new(alloc),
        }
    }

    /// Checks an attribute, and adds it where it is an effect attribute.
    fn add_attr(
        &mut self,
        name: &Name,
        tag: Option<Tag>,
        init: &Option<Literal>,
    ) -> Result<(), Memory>
        ensures all { self.new.all ≡ self.old.all }
        ensures typed { OnOk result (self.new.typed ≡ with_checked (setting_at self.old.all.now self.old.typed) (Attr name.now tag init.now) self.old.typed) }
    {
        let context = context_at(self.alloc, self.all, &self.typed.earlier, self.typed.slots);
        let start = check_attr(&context, name, tag.is_some(), init, &mut self.typed.found);
        match tag {
            None => Ok(()),
            Some(tag) => self.typed.effects.push(EffectAttr {
                name: name.text.clone()?,
                tag,
                init: start,
            }),
        }
    }

    /// Checks an aggregate, and adds it.
    fn add_aggregate(
        &mut self,
        name: &Name,
        params: &[Name],
        fold: &Fold,
        tests: &[Test],
        otherwise: &Option<(Place, Literal)>,
    ) -> Result<(), Memory>
        ensures all { self.new.all ≡ self.old.all }
        ensures typed { OnOk result (self.new.typed ≡ with_checked (setting_at self.old.all.now self.old.typed) (Aggregate name.now params.now fold.now tests.now otherwise.now) self.old.typed) }
    {
        let context = context_at(self.alloc, self.all, &self.typed.earlier, self.typed.slots);
        let found = &mut self.typed.found;
        let made = check_aggregate(&context, name, params, fold, tests, otherwise, found)?;
        self.typed.aggs.push(made)
    }

    /// Checks an action, and adds it.
    fn add_action(&mut self, name: &Name, params: &[Name], ons: &[OnClause]) -> Result<(), Memory>
        ensures all { self.new.all ≡ self.old.all }
        ensures typed { OnOk result (self.new.typed ≡ with_checked (setting_at self.old.all.now self.old.typed) (Action name.now params.now ons.now) self.old.typed) }
    {
        let context = context_at(self.alloc, self.all, &self.typed.earlier, self.typed.slots);
        let made = check_action(&context, name, params, ons, &mut self.typed.found)?;
        self.typed.actions.push(made)
    }

    /// Checks a routine, and adds it with the slots of its parameters and lets.
    fn add_routine(
        &mut self,
        name: &Name,
        params: &[Name],
        statements: &[Stmt],
    ) -> Result<(), Memory>
        ensures all { self.new.all ≡ self.old.all }
        ensures typed { OnOk result (self.new.typed ≡ with_checked (setting_at self.old.all.now self.old.typed) (Routine name.now params.now statements.now) self.old.typed) }
    {
        let context = context_at(self.alloc, self.all, &self.typed.earlier, self.typed.slots);
        let found = &mut self.typed.found;
        let (made, slots) = check_routine(&context, name, params, statements, found)?;
        self.typed.slots = slots;
        self.typed.routines.push(made)
    }

    /// Checks `main`, and sets it with the slots of its lets.
    fn add_main(&mut self, place: Place, unit: &Name, statements: &[Stmt]) -> Result<(), Memory>
        ensures all { self.new.all ≡ self.old.all }
        ensures typed { OnOk result (self.new.typed ≡ with_checked (setting_at self.old.all.now self.old.typed) (Main place unit.now statements.now) self.old.typed) }
    {
        let context = context_at(self.alloc, self.all, &self.typed.earlier, self.typed.slots);
        let found = &mut self.typed.found;
        let (made, slots) = check_main(&context, place, unit, statements, found)?;
        self.typed.slots = slots;
        self.typed.main = made;
        Ok(())
    }

    /// Checks `post`, and sets it.
    fn add_post(
        &mut self,
        place: Place,
        rules: &List<Rule>,
        spawn: &Option<Spawn>,
        removal: &Option<Expr>,
    ) -> Result<(), Memory>
        ensures all { self.new.all ≡ self.old.all }
        ensures typed { OnOk result (self.new.typed ≡ with_checked (setting_at self.old.all.now self.old.typed) (Post place rules.now spawn.now removal.now) self.old.typed) }
    {
        let context = context_at(self.alloc, self.all, &self.typed.earlier, self.typed.slots);
        let found = &mut self.typed.found;
        let (rules, spawn, removal) = check_post(&context, place, rules, spawn, removal, found)?;
        self.typed.rules = rules;
        self.typed.spawn = spawn;
        self.typed.removal = removal;
        Ok(())
    }

    /// Checks an item, and adds what it is resolved to.
    fn add_item(&mut self, item: &Item) -> Result<(), Memory>
        ensures all { self.new.all ≡ self.old.all }
        ensures typed { OnOk result (self.new.typed ≡ with_checked (setting_at self.old.all.now self.old.typed) item.now self.old.typed) }
    {
        match item {
            Item::Attr { name, tag, init } => self.add_attr(name, *tag, init),
            Item::Aggregate {
                name,
                params,
                fold,
                tests,
                otherwise,
            } => self.add_aggregate(name, params.as_slice(), fold, tests.as_slice(), otherwise),
            Item::Action { name, params, ons } => {
                self.add_action(name, params.as_slice(), ons.as_slice())
            }
            Item::Routine { name, params, body } => {
                self.add_routine(name, params.as_slice(), body.as_slice())
            }
            Item::Main { place, unit, body } => self.add_main(*place, unit, body.as_slice()),
            Item::Post {
                place,
                rules,
                spawn,
                removal,
            } => self.add_post(*place, rules, spawn, removal),
        }
    }

    /// Checks items one by one, and resolves their names.
    pub fn check_items(&mut self, items: &[Item]) -> Result<(), Memory>
        ensures { OnOk result (self.new.typed ≡ after_items self.old.all.now items.now self.old.typed) }
    {
        for item in items {
            self.add_item(item)?;
            self.typed.earlier.declare(item)?;
        }
        Ok(())
    }
}
