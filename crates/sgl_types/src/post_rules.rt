//! Checks `post`: its assignments, `spawn when` and `remove when`.
#![tactic(auto, using(crate::proofs::Equations::joining))]

ghost use Rattle.std.specs.Prelude.{◌≡◌, [], IfOk, OnOk};
ghost use Rattle.sgl_typed.specs.declared.script.Kind.TheVariants.{Logical};
ghost use Rattle.sgl_types.specs.Faults.{operand_faults};
ghost use Rattle.sgl_types.specs.Findings.{noted};
ghost use Rattle.sgl_types.specs.Items.{setting_of, repeated, assigned_names, rule_faults, assignments_faults, child_faults, post_faults};
ghost use Rattle.sgl_types.specs.Typed.{typed as typed_expression};
ghost use Rattle.sgl_types.specs.TypedItems.{typed_rule, rules_in, typed_rules, typed_child, typed_spawn, typed_removal};

use crate::bodies::{Body, Context, Locals, Part, Site};
use crate::each::{Check, check_each, check_given};
use crate::expressions::check_wanted;
use crate::finding::{Finding, TypeKind, note_if};
use crate::names::Names;
use crate::parameters::note_seen;
use crate::targets::Target;
use sgl_tree::{Expr, Rule, Spawn};
use sgl_typed::{Kind, TExpr, TRule, TSpawn};
use sgl_values::{List, Memory, Place};
use std::alloc::Global;

/// Notes each attribute that is assigned a second time.
fn check_assigned_twice(
    alloc: Global,
    rules: &[Rule],
    found: &mut Option<Finding>,
) -> Result<(), Memory>
    ensures { OnOk result (found.new ≡ noted found.old (repeated [] (assigned_names rules.now))) }
{
    let mut seen = Names::new(alloc);
    for rule in rules {
        note_seen(&mut seen, &rule.attr, found)?;
    }
    Ok(())
}

impl Check for Rule {
    type Made = TRule;

    ghost typed = { typed_rule };

    ghost faults = { rule_faults };

    fn check(&self, at: &Site<'_>, found: &mut Option<Finding>) -> Result<TRule, Memory> {
        Ok(TRule {
            attr: Target::Const.check(at, &self.attr, found)?.number,
            value: check_wanted(at, Kind::Numeric, &self.value, found)?,
        })
    }
}

/// The assignments of one block are a part by themselves, since no attribute is assigned twice among them.
impl Check for List<Rule> {
    type Made = List<TRule>;

    ghost typed = { rules_in };

    ghost faults = { assignments_faults };

    fn check(&self, at: &Site<'_>, found: &mut Option<Finding>) -> Result<List<TRule>, Memory> {
        check_assigned_twice(at.alloc, self.as_slice(), found)?;
        check_each(at, self.as_slice(), found)
    }
}

impl Check for Spawn {
    type Made = TSpawn;

    ghost typed = { typed_child };

    ghost faults = { child_faults };

    fn check(&self, at: &Site<'_>, found: &mut Option<Finding>) -> Result<TSpawn, Memory> {
        let cond = check_wanted(at, Kind::Logical, &self.cond, found)?;
        let rules = self.rules.check(at, found)?;
        Ok(TSpawn { cond, rules })
    }
}

/// An expression that is a part by itself is a condition, as that of `remove when`.
impl Check for Expr {
    type Made = TExpr;

    ghost typed = { typed_expression };

    ghost faults = { operand_faults Logical };

    fn check(&self, at: &Site<'_>, found: &mut Option<Finding>) -> Result<TExpr, Memory> {
        check_wanted(at, Kind::Logical, self, found)
    }
}

/// Checks `post`, and resolves its names.
pub fn check_post(
    context: &Context<'_>,
    place: Place,
    rules: &List<Rule>,
    spawn: &Option<Spawn>,
    removal: &Option<Expr>,
    found: &mut Option<Finding>,
) -> Result<(List<TRule>, Option<TSpawn>, Option<TExpr>), Memory>
    ensures rules { IfOk result (λ m. m.0 ≡ typed_rules (setting_of context.now) rules.now) }
    ensures spawn { IfOk result (λ m. m.1 ≡ typed_spawn (setting_of context.now) spawn.now) }
    ensures removal { IfOk result (λ m. m.2 ≡ typed_removal (setting_of context.now) removal.now) }
    ensures found { OnOk result (found.new ≡ noted found.old (post_faults (setting_of context.now) place rules.now spawn.now removal.now)) }
{
    let body = Body {
        all: context.all,
        earlier: context.earlier,
        part: Part::Post,
        unit: "",
        target: "",
    };
    let locals = Locals::new(context.alloc);
    let at = Site {
        alloc: context.alloc,
        body: &body,
        locals: &locals,
    };
    note_if(found, context.earlier.has_post, TypeKind::Twice, place);
    let rules = rules.check(&at, found)?;
    let spawn = check_given(&at, spawn, found)?;
    let removal = check_given(&at, removal, found)?;
    Ok((rules, spawn, removal))
}
