//! Plans as text, with all that stands in their nodes.

use battle_algebra::{EffectUse, Node, Plan};
use sgl_typed::{AggUse, Attr, TExpr};
use sgl_values::Place;
use std::alloc::Global;
use std::test::Fail;
use test_cases::{shown_operation, shown_place};

fn shown_attr(alloc: Global, attr: Attr) -> Result<String, Fail> {
    match attr {
        Attr::Key => Ok(format!(in alloc; "key")?),
        Attr::Const(number) => Ok(format!(in alloc; "{number}")?),
    }
}

// An expression with all brackets, and the places in it.
fn shown(alloc: Global, expr: &TExpr) -> Result<String, Fail> {
    let text = match expr {
        TExpr::Number(number) => format!(in alloc; "{}", number.get())?,
        TExpr::Truth(truth) => format!(in alloc; "{truth}")?,
        TExpr::Slot(slot) => format!(in alloc; "s{slot}")?,
        TExpr::Unit(attr) => format!(in alloc; "u.{}", shown_attr(alloc, *attr)?)?,
        TExpr::Target(attr) => format!(in alloc; "e.{}", shown_attr(alloc, *attr)?)?,
        TExpr::Combined(effect) => format!(in alloc; "combined {effect}")?,
        TExpr::Random(index) => format!(in alloc; "random({index})")?,
        TExpr::Agg(_) => format!(in alloc; "a call")?,
        TExpr::Neg(inner) => format!(in alloc; "(- {})", shown(alloc, inner.get())?)?,
        TExpr::Not(inner) => format!(in alloc; "(not {})", shown(alloc, inner.get())?)?,
        TExpr::Binary {
            left,
            op,
            place,
            right,
        } => {
            let sides = (shown(alloc, left.get())?, shown(alloc, right.get())?);
            shown_operation(alloc, sides.0.as_str(), *op, *place, sides.1.as_str())?
        }
    };
    Ok(text)
}

// An expression with its place.
fn shown_at(alloc: Global, expr: &TExpr, place: Place) -> Result<String, Fail> {
    let text = shown(alloc, expr)?;
    let place = shown_place(alloc, place)?;
    Ok(format!(in alloc; "{text} at {place}")?)
}

// Expressions, each behind a blank.
fn shown_all(alloc: Global, exprs: &[TExpr]) -> Result<String, Fail> {
    let mut text = String::new(alloc);
    for expr in exprs {
        text.push_str(" ")?;
        text.push_str(shown(alloc, expr)?.as_str())?;
    }
    Ok(text)
}

fn shown_call(alloc: Global, call: &AggUse) -> Result<String, Fail> {
    let args = shown_all(alloc, call.args.as_slice())?;
    Ok(format!(in alloc;
        "{}({args} ) at {}",
        call.agg,
        shown_place(alloc, call.place)?
    )?)
}

fn shown_act(alloc: Global, act: &EffectUse) -> Result<String, Fail> {
    let args = shown_all(alloc, act.args.as_slice())?;
    let place = shown_place(alloc, act.place)?;
    Ok(format!(in alloc; "{}.{}({args} ) at {place}", act.action, act.clause)?)
}

fn shown_node(alloc: Global, node: &Node) -> Result<String, Fail> {
    let text = match node {
        Node::Empty => format!(in alloc; "empty")?,
        Node::Extend {
            slot,
            place,
            value,
            then,
        } => format!(in alloc;
            "extend s{slot} {} then {then}",
            shown_at(alloc, value, *place)?
        )?,
        Node::Agg {
            call,
            slot,
            way,
            then,
        } => {
            let call = shown_call(alloc, call)?;
            format!(in alloc; "agg s{slot} {call} {way:?} then {then}")?
        }
        Node::Split {
            cond,
            place,
            yes,
            no,
        } => {
            let cond = shown_at(alloc, cond, *place)?;
            format!(in alloc; "split {cond} yes {yes} no {no}")?
        }
        Node::Effect { act, way } => {
            format!(in alloc; "effect {} {way:?}", shown_act(alloc, act)?)?
        }
        Node::Both { left, right } => format!(in alloc; "both {left} {right}")?,
    };
    Ok(text)
}

/// The nodes of a plan, a line each.
pub fn shown_plan(alloc: Global, plan: &Plan) -> Result<String, Fail> {
    let mut text = String::new(alloc);
    for node in plan.nodes.as_slice() {
        text.push_str(shown_node(alloc, node)?.as_str())?;
        text.push_str("\n")?;
    }
    Ok(text)
}
