//! The values of an expression for the rows of a task, side by side where that can be.
ghost use Rattle.std.specs.Prelude.{◌≡◌, ◌<◌, ◌+◌, ℕ, length, slice_index_or};
ghost use Rattle.sgl_typed.specs.Aggregate.{simple_value};
ghost use Rattle.battle_algebra.specs.Meaning.{source_value};
ghost use Rattle.battle_algebra.specs.Tree.{Source, node_of};
ghost use Rattle.battle_algebra.specs.declared.plan.Node.TheVariants as Node;
ghost use Rattle.sgl_lanes.specs.Lanes.{HoldEach};
ghost use Rattle.task_scratch.specs.Scratch.{slots_in};
ghost use Rattle.plan_executor.specs.Frames.{with_slots};
ghost use Rattle.plan_executor.specs.Running.{base_of, IsInside};

use crate::run::Run;
use battle_algebra::Node;
use sgl_lanes::{LaneContexts, LaneValues, Lanes};
use sgl_typed::{Attr, TExpr};
use sgl_values::{Num, TASK_ROWS, Val};
use task_scratch::SlotRows;

/// The frames of a task, each of them a lane.
#[derive(Clone, Copy)]
pub(crate) struct FrameLanes<'a> {
    run: &'a Run<'a>,
    rows: &'a SlotRows,
}

impl LaneContexts for FrameLanes<'_> {
    ghost use Rattle.plan_executor.specs.Values.{CanRead, lane_frame};

    ghost can_read = { CanRead };

    ghost context = { lane_frame };

    fn unit(&self, lane: u32, attr: Attr) -> Num {
        self.run.attribute(lane, attr)
    }

    fn units(&self, _mask: u64, attr: Attr, out: &mut [Num; 64]) {
        self.run.put_attribute(attr, out);
    }

    fn lent_units(&self, _mask: u64, attr: Attr) -> Option<&[Num; 64]> {
        self.run.column(attr)
    }

    fn target(&self, lane: u32, attr: Attr) -> Num {
        self.run.attribute(lane, attr)
    }

    fn slot(&self, lane: u32, slot: u32) -> Val {
        self.rows.value(lane, slot)
    }

    fn slots(&self, mask: u64, slot: u32, out: &mut [Num; 64]) -> Lanes {
        self.rows.lanes(slot, mask, out)
    }

    fn lent_slots(&self, mask: u64, slot: u32) -> Option<&[Num; 64]> {
        self.rows.lent(slot, mask)
    }

    fn combined(&self, _lane: u32, _effect: u32) -> Num {
        Num::zero()
    }

    fn random(&self, lane: u32, index: u16) -> Num {
        self.run.random(lane, index)
    }
}

/// Reads the values of an expression for the rows of a set, where they are known.
pub(crate) fn read_values(
    run: &Run,
    expr: &TExpr,
    mask: u64,
    rows: &SlotRows,
    values: &mut LaneValues,
    spare: &mut [LaneValues],
)
    requires inside { IsInside run.now mask }
    requires rows { length rows.now ≡ TASK_ROWS }
    ensures { HoldEach values.new.kind mask values.new.numbers (λ k. simple_value (with_slots (base_of run.now) (slots_in rows.now) k) expr.now) }
{
    values.evaluate(&FrameLanes { run, rows }, mask, expr, spare);
}

/// Reads those of what a node sets its slot to: unknown, where it calls an aggregate.
pub(crate) fn read_node_values(
    run: &Run,
    node: usize,
    mask: u64,
    rows: &SlotRows,
    values: &mut LaneValues,
    spare: &mut [LaneValues],
)
    requires node { node < length run.now.nodes.now }
    requires inside { IsInside run.now mask }
    requires rows { length rows.now ≡ TASK_ROWS }
    ensures { (slot : ℕ) (source : Source) (child : ℕ) → slice_index_or run.now.nodes.now node Node.Empty ≡ node_of slot source child
        → HoldEach values.new.kind mask values.new.numbers (λ k. source_value (with_slots (base_of run.now) (slots_in rows.now) k) source) }
{
    match &run.nodes[node] {
        Node::Extend { value, .. } => read_values(run, value, mask, rows, values, spare),
        _ => values.kind = Lanes::Unknown,
    }
}
