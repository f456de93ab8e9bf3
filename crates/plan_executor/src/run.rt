//! What a task reads.
ghost use Rattle.std.specs.Prelude.{◌≡◌, ◌<◌, ◌+◌, ℕ, IfSome, List, length, slice_index_or};
ghost use Rattle.std.specs.Option.{ForSome};
ghost use Rattle.sgl_typed.specs.Aggregate.{simple_value};
ghost use Rattle.sgl_lanes.specs.Columns.{AreColumns};
ghost use Rattle.sgl_lanes.specs.Lanes.{lane_of};
ghost use Rattle.sgl_typed.specs.Draw.{draw};
ghost use Rattle.sgl_typed.specs.Value.{attribute};
ghost use Rattle.sgl_typed.specs.declared.script.AggUse.{AggUse as AggUseOf};
ghost use Rattle.sgl_values.specs.declared.fault.Val.{Val as AVal};
ghost use Rattle.battle_algebra.specs.Meaning.{call_value};
ghost use Rattle.battle_algebra.specs.declared.plan.Node.TheVariants as Node;
ghost use Rattle.battle_algebra.specs.declared.plan.Way.{Way as WayOf};
ghost use Rattle.index_set.specs.Forms.{AreFormsAt};
ghost use Rattle.plan_executor.specs.Own.{AreOwn};

use crate::outlet::Outlet;
use battle_algebra::{Node, NormalPlan};
use index_set::{IndexOf, IndexSet};
use sgl_evaluate::{Frame, NoCalls, TickContext, attribute_of, evaluate};
use sgl_lanes::{LANES, read_rows};
use sgl_typed::{Attr, TExpr};
use sgl_values::{Num, Val};
use test_boxes::TestForms;
use tick_random::random;

/// A task: what it reads, the number of its first row, and where its items go.
#[derive(Clone, Copy)]
pub(crate) struct Run<'a> {
    pub tick: TickContext<'a>,
    pub plan: &'a NormalPlan,
    pub nodes: &'a [Node],
    pub index: &'a IndexSet,
    pub first: u32,
    // The attributes of the rows of the task.
    pub columns: &'a [[Num; LANES]],
    // The rows of the task, a lane each.
    pub own: &'a [u32; LANES],
    pub out: Outlet<'a>,
    ghost read: { AreColumns tick.world.now first columns.now },
    ghost own_is: { AreOwn first (length tick.world.now.world.rows) own.now },
}

impl Run<'_> {
    ghost use Rattle.sgl_evaluate.specs.Frame.{context_of, IsFrame};
    ghost use Rattle.plan_executor.specs.Running.{base_of, CanRun};
    ghost use Rattle.plan_executor.specs.Written.{AreWritten};

    /// The number of a row of the task in the world.
    pub(crate) fn unit_row(&self, row: u32) -> u32
        requires { self.now.first + row < length self.now.tick.world.now.world.rows }
        ensures { result ≡ self.now.first + row }
    {
        let _rows = self.tick.world.len();
        self.first + row
    }

    /// An attribute of a row.
    pub(crate) fn attribute(&self, row: u32, attr: Attr) -> Num
        requires { self.now.first + row < length self.now.tick.world.now.world.rows }
        ensures { result ≡ attribute attr (base_of self.now row).unit }
    {
        attribute_of(self.tick.world, self.unit_row(row), attr)
    }

    /// An attribute of all rows, each in its lane.
    pub(crate) fn put_attribute(&self, attr: Attr, out: &mut [Num; LANES])
        ensures { (lane : ℕ) → lane < LANES → self.now.first + lane < length self.now.tick.world.now.world.rows
            → lane_of out.new lane ≡ attribute attr (base_of self.now lane).unit }
    {
        match self.column(attr) {
            Some(column) => *out = *column,
            None => read_rows(self.tick.world, self.first, attr, out),
        }
    }

    /// The column of an attribute, where it has one.
    pub(crate) fn column(&self, attr: Attr) -> Option<&[Num; LANES]>
        ensures { IfSome result (λ column. (lane : ℕ) → lane < LANES → self.now.first + lane < length self.now.tick.world.now.world.rows
            → lane_of column.now lane ≡ attribute attr (base_of self.now lane).unit) }
    {
        match attr {
            Attr::Const(number) if number < self.tick.world.width() => {
                self.columns.get(number as usize)
            }
            _ => None,
        }
    }

    /// The random number with this index of a row.
    pub(crate) fn random(&self, row: u32, index: u16) -> Num
        requires { self.now.first + row < length self.now.tick.world.now.world.rows }
        ensures { result ≡ draw self.now.tick.seed self.now.tick.world.now.world.tick (base_of self.now row).unit.key index }
    {
        let key = self.tick.world.key(self.unit_row(row));
        random(self.tick.seed, self.tick.world.tick(), key, index)
    }

    /// The frame of a row with these slots.
    pub(crate) fn frame<'b>(&'b self, row: u32, slots: &'b [Val]) -> Frame<'b>
        requires { self.now.first + row < length self.now.tick.world.now.world.rows }
        ensures rows { IsFrame result }
        ensures context { context_of result ≡ record (base_of self.entry.now row) { slots = slots.entry.now } }
        ensures world { result.tick.world.now ≡ self.entry.now.tick.world.now }
        ensures script { result.tick.script.now ≡ self.entry.now.tick.script.now }
    {
        let unit = self.unit_row(row);
        Frame {
            tick: self.tick,
            unit,
            slots,
            target: unit,
            combined: &[],
        }
    }

    /// The value of an expression for a row with these slots.
    pub(crate) fn value(&self, row: u32, slots: &[Val], expr: &TExpr) -> Val
        requires { self.now.first + row < length self.now.tick.world.now.world.rows }
        ensures { result ≡ simple_value (record (base_of self.now row) { slots = slots.now }) expr.now }
    {
        evaluate(&NoCalls, &self.frame(row, slots), expr)
    }

    /// The forms of the tests that a node asks with.
    pub(crate) fn forms(&self, node: usize) -> Option<&TestForms>
        requires can { CanRun self.now }
        requires small { node < 4294967296 }
        ensures { ForSome result (λ forms. AreFormsAt self.now.tick.script.now self.now.plan.now node forms.now) }
    {
        self.index.forms(node as u32)
    }

    /// What the index was built of.
    pub(crate) fn of(&self) -> IndexOf<'_>
        ensures { result ≡ record { script = self.entry.now.tick.script; plan = self.entry.now.plan; world = self.entry.now.tick.world } }
    {
        IndexOf {
            script: self.tick.script,
            plan: self.plan,
            world: self.tick.world,
        }
    }

    /// The value of the call of a node for a row, by the values of its arguments, which are the same
    /// whatever the slots are.
    pub(crate) fn answer_of(
        &self,
        node: usize,
        row: u32,
        args: &[Val],
        forms: Option<&TestForms>,
    ) -> Val
        requires can { CanRun self.now }
        requires small { node < 4294967296 }
        requires args { AreWritten self.now node args.now }
        requires forms { ForSome forms (λ forms. AreFormsAt self.now.tick.script.now self.now.plan.now node forms.now) }
        requires row { self.now.first + row < length self.now.tick.world.now.world.rows }
        ensures { (slots : List AVal) (slot : ℕ) (call : AggUseOf) (way : WayOf) (child : ℕ) → slice_index_or self.now.nodes.now node Node.Empty ≡ Node.Agg slot call way child
            → result ≡ call_value (record (base_of self.now row) { slots = slots }) call }
    {
        let unit = self.unit_row(row);
        self.index
            .answer_of(self.of(), node as u32, unit, args, forms)
    }
}
