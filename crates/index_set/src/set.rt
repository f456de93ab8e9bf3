//! The indices of one world.
ghost use Rattle.std.specs.Prelude.{◌≡◌, ◌<◌, ◌≤◌, ℕ, IfNone, IfOk, IfSome, List, None, Some, false, filter, length, slice_get, take, true};
ghost use Rattle.std.specs.Option.{ForSome};
ghost use Rattle.sgl_values.specs.World.{World as WorldOf, row_at};
ghost use Rattle.key_table.specs.Keys.{keys_of};
ghost use Rattle.sgl_typed.specs.declared.script.TScript.{TScript as TScriptOf};
ghost use Rattle.sgl_typed.specs.Aggregate.{aggregate as aggregate_of, call_of, made};
ghost use Rattle.battle_algebra.specs.Meaning.{call_value, clause_of};
ghost use Rattle.battle_algebra.specs.OfScript.{IsOf};
ghost use Rattle.battle_algebra.specs.Plans.{tree_in};
ghost use Rattle.battle_algebra.specs.declared.normal_plan.NormalPlan.{NormalPlan as NormalPlanOf};
ghost use Rattle.battle_algebra.specs.declared.plan.Node.TheVariants.{Effect};
ghost use Rattle.test_boxes.specs.Forms.{FitTests, IsAsking};
ghost use Rattle.sgl_evaluate.specs.Forms.{HaveLiterals};
ghost use Rattle.sgl_evaluate.specs.Frame.{context_of, IsFrame};
ghost use Rattle.sgl_evaluate.specs.Rights.{passes_each};
ghost use Rattle.index_set.specs.Forms.{AreCallForms, AreFormsAt, HaveFormsAt};
ghost use Rattle.index_set.specs.Frames.{frame_of};
ghost use Rattle.index_set.specs.Sets.{AreArgsAt, AreTargetsAt, AreTargetsOf, IsAnswerAt, IsIndexOf, KeepsAll, acting, keys_in, seed_of};
ghost use Rattle.index_set.specs.Slabs.{AreAllUsed};
ghost use Rattle.index_set.specs.Sweeps.{IsSweptFor, swept_in};
ghost use Rattle.group_sweeps.specs.declared.swept.Swept.{Swept};
ghost use Rattle.sgl_values.specs.declared.fault.Val.{Val as AVal};

use crate::asked_keys::keys_for;
use crate::forms::forms_by_node;
use crate::kept::kept_at;
use crate::keyed::keyed;
use crate::parts::{Own, Parts, Rest, parts_of};
use crate::ranged::{RangedAt, ranged};
use crate::round::{Round, rounded};
use crate::shelf::Shelf;
use crate::slabs::Slabs;
use crate::source::Source;
use crate::sweeps::Sweeps;
use crate::targets::{Actor, Targets, aimed, nowhere};
use battle_algebra::{EffectUse, EffectWay, Node, NormalPlan, Way, clause_at};
use env_table::World;
use group_sweeps::Means;
use group_trees::{GroupTrees, nearest_found};
use key_table::KeyTable;
use sgl_evaluate::{Frame, NoCalls, Rights, TickContext, evaluate_args, fold_rows};
use sgl_typed::{AggUse, TAgg, TScript};
use sgl_values::{Memory, Num, PARAMS_MAX, Val};
use std::alloc::Global;
use std::thread::Threads;
use test_boxes::{Asking, TestForms, rights_fault};

/// The indices of one world for a plan and the seed of the draw. It holds no copy of script, plan or world.
#[derive(Drop)]
pub struct IndexSet {
    seed: u64,
    // The rows of keys.
    pub(crate) keys: KeyTable,
    // Partitions and range indices, and which of them answer each aggregate of the script.
    pub(crate) shelf: Shelf,
    pub(crate) aggs: Vec<Option<RangedAt>>,
    // The trees of each aggregate of the script that asks for the nearest row.
    pub(crate) trees: Vec<Option<GroupTrees>>,
    // The rows of groups, for each aggregate of the script over the rows in a circle.
    pub(crate) rounds: Vec<Option<Round>>,
    // The answers of the uses of extremes, for the nodes that call them.
    pub(crate) sweeps: Sweeps,
    // The rows of groups by rising value, for the clauses of effects.
    pub(crate) slabs: Slabs,
    // The forms of the tests that each node asks with.
    pub(crate) forms: Vec<Option<TestForms>>,
}

/// What a set was built of.
#[derive(Clone, Copy)]
pub struct IndexOf<'a> {
    pub script: &'a TScript,
    pub plan: &'a NormalPlan,
    pub world: &'a World,
}

impl IndexSet {
    /// The indices of a world for the plan of a script: the rows of its keys where the plan asks for them, the partitions that
    /// its tests read, range indices over their groups for counts and sums, trees for the nearest, the answers of extremes for
    /// all rows, and the rows of groups by rising value for effects. It takes n log n time for n rows, but for trees, which take
    /// n log squared n, and for the windows of an extreme that are of many widths (`extreme_sweep`). At most so many threads
    /// share the work; one where it is 0. `Memory` is its only refusal.
    pub fn build<'a>(
        rt: &(impl Threads + Sync),
        threads: usize,
        alloc: Global,
        script: &'a TScript,
        plan: &'a NormalPlan,
        world: &'a World,
        seed: u64,
    ) -> Result<IndexSet, Memory>
        requires { IsOf script.now (tree_in plan.now.plan.nodes) }
        ensures { IfOk result (λ set. IsIndexOf set script.now plan.now world.now.world seed) }
    {
        let keys = keys_for(alloc, script, plan, world)?;
        let of = Source {
            script,
            plan: plan.plan(),
            world,
            keys: &keys,
            seed,
        };
        let means = Means { rt, threads, alloc };
        let parts = parts_of(&means, &of)?;
        let Parts { rest, sweeps } = parts;
        let Rest { shelf, own } = rest;
        let Own {
            aggs,
            trees,
            rounds,
            slabs,
        } = own;
        let forms = forms_by_node(alloc, script, plan.plan().nodes.as_slice())?;
        Ok(IndexSet {
            seed,
            keys,
            shelf,
            aggs,
            trees,
            rounds,
            sweeps,
            slabs,
            forms,
        })
    }

    /// The forms of the right sides of the aggregate that a node calls, or of the clause of its effect, for the arguments
    /// that are written there; `None` exactly where a right side has none, there are more than sixteen, or the node asks for
    /// nothing. Whoever asks for many rows of one node tells them. It takes no memory.
    pub fn forms(&self, node: u32) -> Option<&TestForms>
        ensures forms { (script : TScriptOf) (plan : NormalPlanOf) (world : WorldOf) (seed : ℕ) → IsIndexOf self.now script plan world seed → ForSome result (λ forms. AreFormsAt script plan node forms.now) }
        ensures none { (script : TScriptOf) (plan : NormalPlanOf) (world : WorldOf) (seed : ℕ) → IsIndexOf self.now script plan world seed → IfNone result (¬ HaveFormsAt script plan node) }
    {
        kept_at(&self.forms, node)
    }

    /// The value of the aggregate that a node calls, for the acting row and the slots of its frame. A node that calls none
    /// has the answer 0. It takes no memory.
    pub fn answer(&self, of: IndexOf, node: u32, row: u32, slots: &[Val]) -> Val
        requires row { row < length of.world.now.world.rows }
        requires built { IsIndexOf self.now of.script.now of.plan.now of.world.now.world (seed_of self.now) }
        ensures { IsAnswerAt of.entry.plan.now node (frame_of of.entry.script.now of.entry.world.now.world (seed_of self.now) (row_at of.entry.world.now.world row) slots.now) result }
    {
        self.answer_by(of, node, row, slots, None)
    }

    /// The same by the forms of the node, where they are told.
    pub fn answer_by(
        &self,
        of: IndexOf,
        node: u32,
        row: u32,
        slots: &[Val],
        forms: Option<&TestForms>,
    ) -> Val
        requires row { row < length of.world.now.world.rows }
        requires forms { ForSome forms (λ forms. AreFormsAt of.script.now of.plan.now node forms.now) }
        requires built { IsIndexOf self.now of.script.now of.plan.now of.world.now.world (seed_of self.now) }
        ensures { IsAnswerAt of.entry.plan.now node (frame_of of.entry.script.now of.entry.world.now.world (seed_of self.now) (row_at of.entry.world.now.world row) slots.now) result }
    {
        self.node_answer::<false>(of, node, row, slots, forms)
    }

    /// The same by the values of the arguments, of which there are at most sixteen, where these are the same whatever the
    /// slots are.
    pub fn answer_of(
        &self,
        of: IndexOf,
        node: u32,
        row: u32,
        args: &[Val],
        forms: Option<&TestForms>,
    ) -> Val
        requires row { row < length of.world.now.world.rows }
        requires args { AreArgsAt of.plan.now node (frame_of of.script.now of.world.now.world (seed_of self.now) (row_at of.world.now.world row)) args.now }
        requires forms { ForSome forms (λ forms. AreFormsAt of.script.now of.plan.now node forms.now) }
        requires built { IsIndexOf self.now of.script.now of.plan.now of.world.now.world (seed_of self.now) }
        ensures { (slots : List AVal) → IsAnswerAt of.entry.plan.now node (frame_of of.entry.script.now of.entry.world.now.world (seed_of self.now) (row_at of.entry.world.now.world row) slots) result }
    {
        self.node_answer::<true>(of, node, row, args, forms)
    }

    /// What an effect goes to, for the acting row and the slots of its frame: the first fault of the right sides of its
    /// clause, or the rows that pass, each once. A node that is no effect goes to no row. It takes no memory.
    pub fn targets<'a>(&'a self, of: IndexOf<'a>, node: u32, row: u32, slots: &[Val]) -> Targets<'a>
        requires row { row < length of.world.now.world.rows }
        requires built { IsIndexOf self.now of.script.now of.plan.now of.world.now.world (seed_of self.now) }
        ensures { AreTargetsAt of.entry.plan.now node (frame_of of.entry.script.now of.entry.world.now.world (seed_of self.entry.now) (row_at of.entry.world.now.world row) slots.now) result }
    {
        match of.plan.plan().nodes.get(node as usize) {
            Some(Node::Effect { act, way }) => { self.act_targets(of, node, row, slots, act, *way) }
            _ => nowhere(actor_of(of, self.seed, row)),
        }
    }
}

impl IndexSet {
    // The value of the aggregate that a node calls, by the slots of the frame, or by the values of
    // its arguments.
    fn node_answer<const ARE_ARGS: bool>(
        &self,
        of: IndexOf,
        node: u32,
        row: u32,
        values: &[Val],
        forms: Option<&TestForms>,
    ) -> Val
        requires row { row < length of.world.now.world.rows }
        requires args { ARE_ARGS ≡ true → AreArgsAt of.plan.now node (frame_of of.script.now of.world.now.world (seed_of self.now) (row_at of.world.now.world row)) values.now }
        requires forms { ForSome forms (λ forms. AreFormsAt of.script.now of.plan.now node forms.now) }
        requires built { IsIndexOf self.now of.script.now of.plan.now of.world.now.world (seed_of self.now) }
        ensures slots { ARE_ARGS ≡ false → IsAnswerAt of.entry.plan.now node (frame_of of.entry.script.now of.entry.world.now.world (seed_of self.now) (row_at of.entry.world.now.world row) values.now) result }
        ensures args { ARE_ARGS ≡ true → (slots : List AVal) → IsAnswerAt of.entry.plan.now node (frame_of of.entry.script.now of.entry.world.now.world (seed_of self.now) (row_at of.entry.world.now.world row) slots) result }
    {
        match of.plan.plan().nodes.get(node as usize) {
            Some(Node::Agg { call, way, .. }) => match self.swept_answer(of, node, call, row) {
                Some(value) => value,
                None => {
                    let frame = frame_at(of, self.seed, row, values);
                    if ARE_ARGS {
                        self.args_answer(&frame, call, *way, forms)
                    } else {
                        self.call_answer(&frame, call, *way, forms)
                    }
                }
            },
            _ => Val::N(Num::zero()),
        }
    }

    // The answer to a call, where that of the node was swept.
    fn swept_answer(&self, of: IndexOf, node: u32, call: &AggUse, row: u32) -> Option<Val>
        requires row { row < length of.world.now.world.rows }
        requires swept { (swept : Swept) → swept_in self.now.sweeps node ≡ Some swept → IsSweptFor swept of.script.now of.world.now.world (seed_of self.now) call.now }
        ensures { IfSome result (λ value. (slots : List AVal) → value ≡ call_value (frame_of of.entry.script.now of.entry.world.now.world (seed_of self.now) (row_at of.entry.world.now.world row) slots) call.now) }
    {
        let swept = self.sweeps.at(node)?;
        let agg = of.script.aggs.get(call.agg as usize)?;
        Some(swept.value(of.world, agg, row))
    }
}

// The frame of a row with these slots.
fn frame_at<'a>(of: IndexOf<'a>, seed: u64, row: u32, slots: &'a [Val]) -> Frame<'a>
    requires { row < length of.world.now.world.rows }
    ensures frame { IsFrame result }
    ensures context { context_of result ≡ frame_of of.entry.script.now of.entry.world.now.world seed (row_at of.entry.world.now.world row) slots.entry.now }
{
    Frame {
        tick: TickContext {
            script: of.script,
            world: of.world,
            seed,
        },
        unit: row,
        slots,
        target: row,
        combined: &[],
    }
}

impl IndexSet {
    // The value of a call. Its first sixteen arguments stand in a buffer, and no aggregate reads more.
    fn call_answer(&self, frame: &Frame, call: &AggUse, way: Way, forms: Option<&TestForms>) -> Val
        requires frame { IsFrame frame.now }
        requires forms { ForSome forms (λ forms. AreCallForms frame.now.tick.script.now call.now forms.now) }
        requires keys { keys_in self.now ≡ keys_of frame.now.tick.world.now.world }
        requires kept { KeepsAll self.now frame.now.tick.script.now frame.now.tick.world.now.world }
        ensures { result ≡ call_value (context_of frame.now) call.now }
    {
        let mut buffer = [Val::N(Num::zero()); PARAMS_MAX];
        let count = call.args.len().min(PARAMS_MAX);
        evaluate_args(&NoCalls, frame, call.args.as_slice(), &mut buffer);
        self.args_answer(&frame.with_slots(&buffer[..count]), call, way, forms)
    }

    // The value of a call, of whose arguments the first sixteen are the slots of the frame.
    fn args_answer(&self, frame: &Frame, call: &AggUse, way: Way, forms: Option<&TestForms>) -> Val
        requires frame { IsFrame frame.now }
        requires forms { ForSome forms (λ forms. AreCallForms frame.now.tick.script.now call.now forms.now) }
        requires literals { HaveLiterals (take PARAMS_MAX call.now.args) frame.now.slots.now }
        requires keys { keys_in self.now ≡ keys_of frame.now.tick.world.now.world }
        requires kept { KeepsAll self.now frame.now.tick.script.now frame.now.tick.world.now.world }
        ensures { result ≡ call_of (context_of frame.now) (slice_get frame.now.tick.script.now.aggs call.now.agg) frame.now.slots.now }
    {
        match frame.tick.script.aggs.get(call.agg as usize) {
            None => Val::N(Num::zero()),
            Some(agg) => self.agg_answer(frame, call.agg, agg, way, forms),
        }
    }

    // The value of the aggregate with this number, whose arguments are the slots of the frame.
    fn agg_answer(
        &self,
        frame: &Frame,
        number: u32,
        agg: &TAgg,
        way: Way,
        forms: Option<&TestForms>,
    ) -> Val
        requires frame { IsFrame frame.now }
        requires agg { slice_get frame.now.tick.script.now.aggs number ≡ Some agg.now }
        requires forms { ForSome forms (λ forms. FitTests forms.now frame.now.slots.now agg.now.tests) }
        requires keys { keys_in self.now ≡ keys_of frame.now.tick.world.now.world }
        requires kept { KeepsAll self.now frame.now.tick.script.now frame.now.tick.world.now.world }
        ensures { result ≡ aggregate_of agg.now (context_of frame.now) frame.now.slots.now }
    {
        let mut rights = Rights::zero();
        match rights_fault(frame, agg.tests.as_slice(), forms, &mut rights) {
            Some(fault) => Val::F(fault),
            None => {
                let asking = Asking {
                    frame,
                    rights: &rights,
                    forms,
                };
                self.folded(&asking, number, agg, way)
            }
        }
    }

    // What the fold of the aggregate with this number makes of the rows that pass, behind right sides without a fault.
    fn folded(&self, asking: &Asking, number: u32, agg: &TAgg, way: Way) -> Val
        requires asking { IsAsking asking.now agg.now.tests }
        requires agg { slice_get asking.now.frame.now.tick.script.now.aggs number ≡ Some agg.now }
        requires keys { keys_in self.now ≡ keys_of asking.now.frame.now.tick.world.now.world }
        requires kept { KeepsAll self.now asking.now.frame.now.tick.script.now asking.now.frame.now.tick.world.now.world }
        ensures { result ≡ made agg.now.kind agg.now (context_of asking.now.frame.now).unit (filter (passes_each (context_of asking.now.frame.now) agg.now.tests) asking.now.frame.now.tick.world.now.world.rows) }
    {
        let Asking { frame, rights, .. } = *asking;
        match way {
            Way::Key => keyed(frame, agg, rights, &self.keys),
            Way::Range => match kept_at(&self.aggs, number) {
                None => fold_rows(agg, frame, rights),
                Some(at) => ranged(asking, agg, &self.shelf, *at),
            },
            Way::Nearest => match kept_at(&self.trees, number) {
                None => fold_rows(agg, frame, rights),
                Some(trees) => nearest_found(asking, agg, trees),
            },
            Way::Circle => match kept_at(&self.rounds, number) {
                None => fold_rows(agg, frame, rights),
                Some(round) => rounded(asking, agg, round),
            },
            Way::Scan | Way::Sweep => fold_rows(agg, frame, rights),
        }
    }
}

// An acting unit without arguments.
fn actor_of<'a>(of: IndexOf<'a>, seed: u64, row: u32) -> Actor<'a>
    ensures script { result.tick.script.now ≡ of.entry.script.now }
    ensures world { result.tick.world ≡ of.entry.world }
    ensures seed { result.tick.seed ≡ seed }
    ensures unit { result.unit ≡ row }
    ensures none { result.count ≡ 0 }
{
    Actor {
        tick: TickContext {
            script: of.script,
            world: of.world,
            seed,
        },
        unit: row,
        args: [Val::N(Num::zero()); PARAMS_MAX],
        count: 0,
    }
}

impl IndexSet {
    // What an effect, which is the node with this number, goes to, by its arguments in the frame of a row with these slots.
    fn act_targets<'a>(
        &'a self,
        of: IndexOf<'a>,
        node: u32,
        row: u32,
        slots: &[Val],
        act: &EffectUse,
        way: EffectWay,
    ) -> Targets<'a>
        requires row { row < length of.world.now.world.rows }
        requires few { length act.now.args ≤ PARAMS_MAX }
        requires keys { keys_in self.now ≡ keys_of of.world.now.world }
        requires act { slice_get of.plan.now.plan.nodes node ≡ Some (Effect act.now way) }
        requires slabs { AreAllUsed self.now.slabs self.now.shelf of.world.now.world of.script.now of.plan.now.plan.nodes }
        ensures { AreTargetsOf result (acting of.entry.script.now of.entry.world.now.world (seed_of self.entry.now) row slots.now act.now) (clause_of (slice_get of.entry.script.now.actions act.now.action) act.now.clause) }
    {
        let mut actor = actor_of(of, self.seed, row);
        actor.count = act.args.len();
        evaluate_args(
            &NoCalls,
            &frame_at(of, self.seed, row, slots),
            act.args.as_slice(),
            &mut actor.args,
        );
        match clause_at(of.script, act) {
            None => nowhere(actor),
            Some(clause) => {
                let tests = clause.tests.as_slice();
                let slab = self.slabs.slab(&self.shelf, of, node, tests);
                aimed(actor, tests, way, slab, &self.keys)
            }
        }
    }
}
