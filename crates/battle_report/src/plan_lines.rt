//! The lines that tell a plan.
ghost use Rattle.std.specs.Prelude.{◌≡◌, ◌+◌, ◌≤◌, ◌∷◌, [], ◌++◌, codes, decimal, flat_map, length};
ghost use Rattle.std.specs.List.{enumerate_from};
ghost use Rattle.sgl_outside.specs.Sinks.{Writes};
ghost use Rattle.battle_report.specs.Lines.{at_text, numbered};
ghost use Rattle.battle_report.specs.PlanLines.{action_name, agg_name, effect_way_word, node_line, numbered_line, plan_text, then_text, way_word};

use crate::line::{name_bytes, one_number, push_at, put_name, two_numbers};
use crate::words::{effect_way_word, way_word};
use battle_algebra::{EffectWay, Node, NormalPlan, Way};
use sgl_outside::{Failed, Sink, put};
use sgl_typed::TScript;
use sgl_values::Place;
use unit_csv::{Line, push_number, push_piece};

/// Writes a plan of a script, a node a line, which names the aggregates and actions as the script has them. It takes no
/// memory. Where the sink fails, a prefix of the lines was written.
pub fn write_plan<S: Sink>(script: &TScript, plan: &NormalPlan, out: &mut S) -> Result<(), Failed>
    ensures { Writes (S.written out.old) (S.written out.new) (S.faults out.old) (S.faults out.new) result (plan_text script.now plan.now.plan.nodes) }
{
    match put(out, b"# plan\n") {
        Ok(()) => write_nodes(script, plan.plan().nodes.as_slice(), out),
        Err(Failed) => Err(Failed),
    }
}

fn write_nodes<S: Sink>(script: &TScript, nodes: &[Node], out: &mut S) -> Result<(), Failed>
    ensures { Writes (S.written out.old) (S.written out.new) (S.faults out.old) (S.faults out.new) result (flat_map (node_line script.now) (enumerate_from 0 nodes.now)) }
{
    for (number, node) in nodes.iter().enumerate() {
        match write_node(script, number as u64, node, out) {
            Ok(()) => {}
            Err(Failed) => return Err(Failed),
        }
    }
    Ok(())
}

fn write_node<S: Sink>(
    script: &TScript,
    number: u64,
    node: &Node,
    out: &mut S,
) -> Result<(), Failed>
    ensures { Writes (S.written out.old) (S.written out.new) (S.faults out.old) (S.faults out.new) result (node_line script.now (number, node.now)) }
{
    match node {
        Node::Empty => {
            let line = one_number(b"", number, b" empty\n");
            put(out, &line)
        }
        Node::Extend {
            slot,
            place,
            then,
            ..
        } => {
            let line = extend_line(number, *slot, *place, *then);
            put(out, &line)
        }
        Node::Agg {
            slot,
            call,
            way,
            then,
        } => {
            let head = two_numbers(b"", number, b" agg s", u64::from(*slot), b" ");
            let tail = agg_tail(*way, call.place, *then);
            put_name(&head, agg_name(script, call.agg), &tail, out)
        }
        Node::Split { place, yes, no, .. } => {
            let line = split_line(number, *place, *yes, *no);
            put(out, &line)
        }
        Node::Effect { act, way } => {
            let head = one_number(b"", number, b" effect ");
            let tail = effect_tail(act.clause, *way, act.place);
            put_name(&head, action_name(script, act.action), &tail, out)
        }
        Node::Both { left, right } => {
            let line = both_line(number, *left, *right);
            put(out, &line)
        }
    }
}

fn extend_line(number: u64, slot: u32, place: Place, next: u32) -> Line
    ensures { result.items ≡ numbered_line number (codes "extend s" ++ (decimal slot ++ (at_text place ++ then_text next))) }
{
    let mut line = two_numbers(b"", number, b" extend s", u64::from(slot), b"");
    push_at(&mut line, place);
    push_then(&mut line, next);
    line.push(b'\n');
    line
}

// What stands behind the name of an aggregate.
fn agg_tail(way: Way, place: Place, next: u32) -> Line
    ensures { result.items ≡ 32 ∷ (way_word way ++ (at_text place ++ (then_text next ++ (10 ∷ [])))) }
{
    let mut line = Line::new();
    line.push(b' ');
    push_piece(&mut line, way_word(way));
    push_at(&mut line, place);
    push_then(&mut line, next);
    line.push(b'\n');
    line
}

fn split_line(number: u64, place: Place, taken: u32, other: u32) -> Line
    ensures { result.items ≡ numbered_line number (codes "split" ++ (at_text place ++ (codes " yes " ++ (decimal taken ++ (codes " no " ++ decimal other))))) }
{
    let mut line = one_number(b"", number, b" split");
    push_at(&mut line, place);
    push_piece(&mut line, b" yes ");
    push_number(&mut line, u64::from(taken));
    push_piece(&mut line, b" no ");
    push_number(&mut line, u64::from(other));
    line.push(b'\n');
    line
}

// What stands behind the name of an action.
fn effect_tail(clause: u32, way: EffectWay, place: Place) -> Line
    ensures { result.items ≡ 46 ∷ (decimal clause ++ (32 ∷ (effect_way_word way ++ (at_text place ++ (10 ∷ []))))) }
{
    let mut line = one_number(b".", u64::from(clause), b" ");
    push_piece(&mut line, effect_way_word(way));
    push_at(&mut line, place);
    line.push(b'\n');
    line
}

fn both_line(number: u64, left: u32, right: u32) -> Line
    ensures { result.items ≡ numbered_line number (codes "both " ++ (decimal left ++ (32 ∷ decimal right))) }
{
    let mut line = two_numbers(b"", number, b" both ", u64::from(left), b" ");
    push_number(&mut line, u64::from(right));
    line.push(b'\n');
    line
}

// Puts the number of the next node behind a line with room for 26 bytes.
fn push_then(line: &mut Line, next: u32)
    requires { length line.old.items + 26 ≤ 2048 }
    ensures text { line.new.items ≡ line.old.items ++ then_text next }
    ensures length { length line.new.items ≤ length line.old.items + 26 }
{
    push_piece(line, b" then ");
    push_number(line, u64::from(next));
}

// The name of an aggregate.
fn agg_name(script: &TScript, agg: u32) -> &[u8]
    ensures { result.now ≡ agg_name script.now agg }
{
    let found = script.aggs.as_slice().get(agg as usize);
    name_bytes(found.map(|agg| &agg.name))
}

// The name of an action.
fn action_name(script: &TScript, action: u32) -> &[u8]
    ensures { result.now ≡ action_name script.now action }
{
    let found = script.actions.as_slice().get(action as usize);
    name_bytes(found.map(|action| &action.name))
}
