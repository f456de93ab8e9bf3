//! Expressions without calls, and the nodes of the calls.
ghost use Rattle.std.specs.Prelude.{◌≡◌, ◌+◌, IfOk, OnOk, [], ◌∷◌};
ghost use Rattle.plan_translate.specs.Calls.{calls_in, lifted, lifted_calls};
ghost use Rattle.plan_translate.specs.Emission.{Emits};
ghost use Rattle.plan_translate.specs.Translation.{calls_in_list, lifted_list, lifted_calls_list};

use crate::sides::with_sides;
use battle_algebra::{Node, NodeList, Way};
use sgl_typed::{AggUse, TExpr, copy_expr};
use sgl_values::{Boxed, List, Memory};

/// The nodes so far, and the first free slot.
#[derive(Debug, Drop)]
pub struct Emitted {
    pub nodes: NodeList,
    pub next: u32,
}

/// The expression with slots in place of its calls, which are written.
#[cycle(lifting)]
#[tactic(auto, using(crate::proofs::Equations::lifting_equations))]
pub fn lift(expr: &TExpr, out: &mut Emitted) -> Result<TExpr, Memory>
    ensures next { OnOk result (out.new.next ≡ out.old.next + calls_in expr.now) }
    ensures lifted { IfOk result (λ e. e ≡ lifted expr.now out.old.next) }
    ensures calls { OnOk result (Emits out.old out.new (lifted_calls expr.now out.old.next)) }
{
    let alloc = out.nodes.allocator();
    match expr {
        TExpr::Agg(call) => {
            let args = lift_all(call.args.as_slice(), out)?;
            let slot = emit_call(call, args, out)?;
            Ok(TExpr::Slot(slot))
        }
        TExpr::Neg(inner) => {
            let inner = lift(inner.get(), out)?;
            Ok(TExpr::Neg(Boxed::new(alloc, inner)?))
        }
        TExpr::Not(inner) => {
            let inner = lift(inner.get(), out)?;
            Ok(TExpr::Not(Boxed::new(alloc, inner)?))
        }
        TExpr::Binary { left, right, .. } => {
            let left = lift(left.get(), out)?;
            let right = lift(right.get(), out)?;
            let made = with_sides(alloc, expr, left, right)?;
            Ok(made)
        }
        leaf => copy_expr(alloc, leaf),
    }
}

/// The expressions with slots in place of their calls, which are written.
#[cycle(lifting)]
#[tactic(auto, using(crate::proofs::Equations::lifting_equations))]
pub fn lift_all(exprs: &[TExpr], out: &mut Emitted) -> Result<List<TExpr>, Memory>
    ensures next { OnOk result (out.new.next ≡ out.old.next + calls_in_list exprs.now) }
    ensures lifted { IfOk result (λ es. es ≡ lifted_list exprs.now out.old.next) }
    ensures calls { OnOk result (Emits out.old out.new (lifted_calls_list exprs.now out.old.next)) }
{
    let mut lifted = List::new(out.nodes.allocator());
    for expr in exprs {
        lifted.push(lift(expr, out)?)?;
    }
    Ok(lifted)
}

// Writes the node of a call with these arguments, and gives its slot.
fn emit_call(call: &AggUse, args: List<TExpr>, out: &mut Emitted) -> Result<u32, Memory>
    ensures next { OnOk result (out.new.next ≡ out.old.next + 1) }
    ensures slot { IfOk result (λ slot. slot ≡ out.old.next) }
    ensures calls { OnOk result (Emits out.old out.new (record { slot = out.old.next; call = record { agg = call.now.agg; args = args; place = call.now.place } } ∷ [])) }
{
    let slot = out.next;
    let then = out.nodes.child()?;
    out.nodes.push(Node::Agg {
        slot,
        call: AggUse {
            agg: call.agg,
            args,
            place: call.place,
        },
        way: Way::Scan,
        then,
    })?;
    out.next = slot.checked_add(1).ok_or(Memory)?;
    Ok(slot)
}
