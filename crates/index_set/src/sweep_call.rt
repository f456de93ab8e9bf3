//! The calls that are answered by sweeps.
ghost use Rattle.std.specs.Prelude.{◌≡◌, ◌≤◌, true, length, slice_get, IfSome, Some};
ghost use Rattle.battle_algebra.specs.Ways as ways;
ghost use Rattle.group_sweeps.specs.Extremes.{is_extreme};
ghost use Rattle.index_set.specs.Sweeps.{IsSameCall, IsSweepCall, call_in};

use crate::source::Source;
use battle_algebra::{Node, Way, class_of};
use sgl_typed::{AggUse, TAgg, TScript, are_all_same};
use sgl_values::PARAMS_MAX;

/// The call of an aggregate by a node that is answered by a sweep.
#[derive(Clone, Copy)]
pub(crate) struct SweepCall<'a> {
    pub(crate) node: usize,
    pub(crate) call: &'a AggUse,
    pub(crate) agg: &'a TAgg,
}

/// Whether a node calls the same aggregate with the same arguments.
pub(crate) fn is_call_of(nodes: &[Node], node: usize, call: &AggUse) -> bool
    ensures { result ≡ true → IsSameCall (call_in nodes.now node) call.now }
{
    match nodes.get(node) {
        Some(Node::Agg { call: other, .. }) => {
            other.agg == call.agg && are_all_same(other.args.as_slice(), call.args.as_slice())
        }
        _ => false,
    }
}

/// The call of a node, where it is answered by a sweep.
pub(crate) fn sweep_call<'a>(of: &Source<'a>, node: usize) -> Option<SweepCall<'a>>
    ensures node { IfSome result (λ found. found.node ≡ node) }
    ensures sweep { IfSome result (λ found. IsSweepCall found of.now) }
{
    match of.nodes().get(node) {
        Some(Node::Agg { call, .. }) => sweep_of(of, node, call),
        _ => None,
    }
}

// The same of its call.
fn sweep_of<'a>(of: &Source<'a>, node: usize, call: &'a AggUse) -> Option<SweepCall<'a>>
    requires { call_in of.now.plan.now.nodes node ≡ Some call.now }
    ensures node { IfSome result (λ found. found.node ≡ node) }
    ensures sweep { IfSome result (λ found. IsSweepCall found of.now) }
{
    match of.script.aggs.get(call.agg as usize) {
        None => None,
        Some(agg) => {
            if is_sweep(of.script, call, agg) {
                Some(SweepCall { node, call, agg })
            } else {
                None
            }
        }
    }
}

// Whether a call is answered by a sweep, of at most sixteen arguments.
fn is_sweep(script: &TScript, call: &AggUse, agg: &TAgg) -> bool
    requires { slice_get script.now.aggs call.now.agg ≡ Some agg.now }
    ensures extreme { result ≡ true → is_extreme agg.now.kind ≡ true }
    ensures few { result ≡ true → ways.few_groups agg.now.tests ≡ true }
    ensures boxed { result ≡ true → ways.is_boxed agg.now.tests ≡ true }
    ensures fixed { result ≡ true → ways.all_fixed agg.now.tests call.now.args ≡ true }
    ensures args { result ≡ true → length call.now.args ≤ PARAMS_MAX }
{
    call.args.len() <= PARAMS_MAX && class_of(script, call) == Way::Sweep
}
