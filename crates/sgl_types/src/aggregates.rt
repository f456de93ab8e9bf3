//! Checks aggregates: the parameters and tests of each, the attributes it reads, and its `else`.
ghost use Rattle.std.specs.Prelude.{◌≡◌, IfOk, OnOk};
ghost use Rattle.sgl_types.specs.Findings.{noted};
ghost use Rattle.sgl_types.specs.Items.{setting_of, second_of, fold_attr_faults, fold_attrs_faults, aggregate_faults};
ghost use Rattle.sgl_types.specs.TypedItems.{attr_or_key, fold_attr, typed_aggregate};

use crate::bodies::{Body, Context, Part, Site};
use crate::declared::{attribute, short};
use crate::each::check_each;
use crate::expressions::check_dotted;
use crate::finding::{Finding, TypeKind, note_if};
use crate::literals::check_else;
use crate::parameters::{after_unit, check_definition, param_locals, unit_of};
use crate::row_tests::check_row;
use sgl_tree::{Fold, Literal, Name, Test};
use sgl_typed::{Attr, TAgg};
use sgl_values::{AGGREGATES_MAX, FoldKind, Memory, Place};

/// Checks the name of an attribute of a fold.
fn check_attr_or_key(
    context: &Context<'_>,
    attr: &Option<Name>,
    found: &mut Option<Finding>,
) -> Result<Attr, Memory>
    ensures attr { IfOk result (λ a. a ≡ attr_or_key (setting_of context.now) attr.now) }
    ensures found { OnOk result (found.new ≡ noted found.old (fold_attr_faults (setting_of context.now) attr.now)) }
{
    match attr {
        None => Ok(Attr::Key),
        Some(name) => {
            let stands_for = attribute(context.all, context.earlier, &name.text)?;
            Ok(check_dotted(found, stands_for, name.place))
        }
    }
}

/// Checks the attribute of a fold, which a count has not.
fn check_fold_attr(
    context: &Context<'_>,
    fold: &Fold,
    found: &mut Option<Finding>,
) -> Result<Attr, Memory>
    ensures attr { IfOk result (λ a. a ≡ fold_attr (setting_of context.now) fold.now.kind fold.now.attr) }
    ensures found { OnOk result (found.new ≡ noted found.old (fold_attr_faults (setting_of context.now) fold.now.attr)) }
{
    let attr = check_attr_or_key(context, &fold.attr, found)?;
    Ok(match fold.kind {
        FoldKind::Count => Attr::Key,
        FoldKind::Sum
        | FoldKind::Min
        | FoldKind::Max
        | FoldKind::Lowest
        | FoldKind::Highest
        | FoldKind::Nearest => attr,
    })
}

/// Checks the second attribute of a fold, which the nearest alone has.
fn check_second(
    context: &Context<'_>,
    fold: &Fold,
    found: &mut Option<Finding>,
) -> Result<Attr, Memory>
    ensures attr { IfOk result (λ a. a ≡ attr_or_key (setting_of context.now) (second_of fold.now.kind fold.now.second)) }
    ensures found { OnOk result (found.new ≡ noted found.old (fold_attr_faults (setting_of context.now) (second_of fold.now.kind fold.now.second))) }
{
    match fold.kind {
        FoldKind::Nearest => check_attr_or_key(context, &fold.second, found),
        FoldKind::Count
        | FoldKind::Sum
        | FoldKind::Min
        | FoldKind::Max
        | FoldKind::Lowest
        | FoldKind::Highest => Ok(Attr::Key),
    }
}

/// Checks the attributes of a fold.
#[tactic(auto, using(crate::proofs::Equations::joining))]
fn check_fold_attrs(
    context: &Context<'_>,
    fold: &Fold,
    found: &mut Option<Finding>,
) -> Result<(Attr, Attr), Memory>
    ensures attr { IfOk result (λ m. m.0 ≡ fold_attr (setting_of context.now) fold.now.kind fold.now.attr) }
    ensures second { IfOk result (λ m. m.1 ≡ attr_or_key (setting_of context.now) (second_of fold.now.kind fold.now.second)) }
    ensures found { OnOk result (found.new ≡ noted found.old (fold_attrs_faults (setting_of context.now) fold.now)) }
{
    let attr = check_fold_attr(context, fold, found)?;
    let second = check_second(context, fold, found)?;
    Ok((attr, second))
}

/// Checks an aggregate, and resolves its names.
#[tactic(auto, using(crate::proofs::Equations::joining))]
pub fn check_aggregate(
    context: &Context<'_>,
    name: &Name,
    params: &[Name],
    fold: &Fold,
    tests: &[Test],
    otherwise: &Option<(Place, Literal)>,
    found: &mut Option<Finding>,
) -> Result<TAgg, Memory>
    ensures made { IfOk result (λ m. m ≡ typed_aggregate (setting_of context.now) name.now params.now fold.now tests.now otherwise.now) }
    ensures found { OnOk result (found.new ≡ noted found.old (aggregate_faults (setting_of context.now) name.now params.now fold.now tests.now otherwise.now)) }
{
    let body = Body {
        all: context.all,
        earlier: context.earlier,
        part: Part::Test,
        unit: unit_of(params),
        target: fold.row.text.as_str(),
    };
    let behind = after_unit(params);
    let locals = param_locals(context.alloc, 0, behind)?;
    let at = Site {
        alloc: context.alloc,
        body: &body,
        locals: &locals,
    };
    check_definition(context, name, params, found)?;
    let is_full = context.earlier.aggs.len() == AGGREGATES_MAX;
    note_if(found, is_full, TypeKind::TooMany, name.place);
    check_row(&at, &fold.row, found);
    let (attr, second) = check_fold_attrs(context, fold, found)?;
    let otherwise = check_else(found, fold.kind, fold.place, otherwise);
    let tests = check_each(&at, tests, found)?;
    Ok(TAgg {
        name: name.text.clone()?,
        params: short(behind.len())?,
        kind: fold.kind,
        place: fold.place,
        attr,
        second,
        tests,
        otherwise,
    })
}
