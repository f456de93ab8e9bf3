//! What an index answers is what a scan gives.
ghost use Rattle.std.specs.Prelude.{◌≡◌, ◌<◌, length};
ghost use Rattle.battle_algebra.specs.OfScript.{IsOf};
ghost use Rattle.battle_algebra.specs.Plans.{tree_in};
ghost use Rattle.sgl_evaluate.specs.Frame.{IsFrame};
ghost use Rattle.index_set.specs.Sets.{IsIndexOf, seed_of};

use crate::battle::compiled;
use crate::worlds::{drawn, world};
use battle_algebra::{EffectUse, EffectWay, Node, NormalPlan, Way};
use env_table::World;
use index_set::{IndexOf, IndexSet, Targets};
use sgl_evaluate::{AggregateCalls, Frame, NoCalls, Rights, TickContext, evaluate_args, passes};
use sgl_typed::{AggUse, TScript, TTest};
use sgl_values::{Fault, Num, Val};
use std::alloc::{AllocError, Global};
use std::process::Abort;
use std::test::Fail;
use std::thread::Threads;

// The seed of the draw.
const SEED: u64 = 7;

// In a world of more rows than these, each fortieth acts.
const FEW: u32 = 100;

// How many answers and effects were compared, how many of them were faults, and how many rows effects went to.
#[derive(Clone, Copy, Debug, PartialEq, Eq)]
struct Tally {
    compared: u64,
    faulty: u64,
    rows: u64,
}

impl Tally {
    // Counts what an effect goes to.
    fn add(&mut self, seen: &Seen) {
        match seen {
            Seen::Faulty(_) => self.faulty = self.faulty.saturating_add(1),
            Seen::Times(times) => {
                for count in times {
                    self.rows = self.rows.saturating_add(u64::from(*count));
                }
            }
        }
    }
}

// What an effect goes to: nothing but a fault, or so many times to each row.
#[derive(Debug, Drop, PartialEq, Eq)]
enum Seen {
    Faulty(Fault),
    Times(Vec<u32>),
}

// The frame of a row.
fn frame_of<'a>(script: &'a TScript, world: &'a World, row: u32, slots: &'a [Val]) -> Frame<'a>
    requires { row < length world.now.world.rows }
    ensures frame { IsFrame result }
    ensures world { result.tick.world.now ≡ world.entry.now }
{
    Frame {
        tick: TickContext {
            script,
            world,
            seed: SEED,
        },
        unit: row,
        slots,
        target: row,
        combined: &[],
    }
}

// The answer of a scan.
fn scanned(frame: &Frame, call: &AggUse) -> Val
    requires { IsFrame frame.now }
{
    let mut args = [Val::N(Num::zero()); 16];
    evaluate_args(&NoCalls, frame, call.args.as_slice(), &mut args);
    frame.call(call.agg, &args[..call.args.len().min(16)])
}

// What these targets are, each row with the number of times that it comes.
fn counted(alloc: Global, rows: u32, targets: &mut Targets) -> Result<Seen, AllocError> {
    match targets {
        Targets::Faulty(fault) => Ok(Seen::Faulty(*fault)),
        Targets::Rows(iter) => {
            let mut times: Vec<u32> = vec![in alloc; 0; rows as usize]?;
            'rows: while let Some(row) = iter.next() {
                match times.get_mut(row as usize) {
                    Some(count) => *count = count.saturating_add(1),
                    None => times.push(1)?,
                }
            }
            Ok(Seen::Times(times))
        }
    }
}

// What tests let an effect go to, by a look at each row.
fn looked_at(alloc: Global, frame: &Frame, tests: &[TTest]) -> Result<Seen, AllocError>
    requires { IsFrame frame.now }
{
    match Rights::read(frame, tests) {
        Err(fault) => Ok(Seen::Faulty(fault)),
        Ok(rights) => {
            let mut times = Vec::new(alloc);
            for row in 0..frame.tick.world.len() {
                times.push(u32::from(passes(frame, tests, &rights, row)))?;
            }
            Ok(Seen::Times(times))
        }
    }
}

// The same for the clause of an effect, whose arguments are evaluated in the frame.
fn aimed_at(alloc: Global, frame: &Frame, act: &EffectUse) -> Result<Seen, AllocError>
    requires { IsFrame frame.now }
{
    let mut args = [Val::N(Num::zero()); 16];
    evaluate_args(&NoCalls, frame, act.args.as_slice(), &mut args);
    let frame = frame.with_slots(&args[..act.args.len().min(16)]);
    let tests = match frame.tick.script.actions.get(act.action as usize) {
        None => &[],
        Some(action) => match action.ons.get(act.clause as usize) {
            None => &[],
            Some(clause) => clause.tests.as_slice(),
        },
    };
    looked_at(alloc, &frame, tests)
}

// Compares what one node answers for one row.
fn compare_node(
    rt: &impl Abort,
    alloc: Global,
    of: IndexOf,
    index: &IndexSet,
    node: u32,
    row: u32,
    slots: &[Val],
    tally: &mut Tally,
) -> Result<(), Fail>
    requires row { row < length of.world.now.world.rows }
    requires index { IsIndexOf index.now of.script.now of.plan.now of.world.now.world (seed_of index.now) }
{
    let frame = frame_of(of.script, of.world, row, slots);
    match of.plan.plan().nodes.get(node as usize) {
        Some(Node::Agg { call, .. }) => {
            let answer = index.answer(of, node, row, slots);
            assert_eq!(rt; answer, scanned(&frame, call));
            tally.compared = tally.compared.saturating_add(1);
            tally.faulty = tally
                .faulty
                .saturating_add(u64::from(matches!(answer, Val::F(_))));
        }
        Some(Node::Effect { act, .. }) => {
            let mut targets = index.targets(of, node, row, slots);
            let seen = counted(alloc, of.world.len(), &mut targets)?;
            assert_eq!(rt; seen, aimed_at(alloc, &frame, act)?);
            tally.compared = tally.compared.saturating_add(1);
            tally.add(&seen);
        }
        _ => {}
    }
    Ok(())
}

// Slots with small numbers.
fn slots_of(
    alloc: Global,
    plan: &NormalPlan,
    number: u64,
    row: u32,
) -> Result<Vec<Val>, AllocError> {
    let mut slots = Vec::new(alloc);
    for slot in 0..plan.plan().slots {
        let small = drawn(number, row, slot.min(1_000) as u16, 9);
        let value = i64::from(small) - 2;
        slots.push(Val::N(Num::new(value).unwrap_or(Num::zero())))?;
    }
    Ok(slots)
}

// Compares what all nodes answer for one row.
fn compare_row(
    rt: &impl Abort,
    alloc: Global,
    of: IndexOf,
    index: &IndexSet,
    number: u64,
    row: u32,
    tally: &mut Tally,
) -> Result<(), Fail>
    requires row { row < length of.world.now.world.rows }
    requires index { IsIndexOf index.now of.script.now of.plan.now of.world.now.world (seed_of index.now) }
{
    let slots = slots_of(alloc, of.plan, number, row)?;
    for node in 0..of.plan.plan().nodes.len().min(1_000) {
        let node = node as u32;
        compare_node(rt, alloc, of, index, node, row, slots.as_slice(), tally)?;
    }
    Ok(())
}

// Compares all rows of a world, or in a large one some of them.
fn compare_world(
    rt: &(impl Abort + Threads + Sync),
    alloc: Global,
    script: &TScript,
    plan: &NormalPlan,
    number: u64,
    threads: usize,
    tally: &mut Tally,
) -> Result<(), Fail>
    requires { IsOf script.now (tree_in plan.now.plan.nodes) }
{
    let world = world(alloc, number)?;
    let index = IndexSet::build(rt, threads, alloc, script, plan, &world, SEED)?;
    let of = IndexOf {
        script,
        plan,
        world: &world,
    };
    let step = if world.len() > FEW { 40 } else { 1 };
    for row in 0..world.len() {
        if row % step == 0 {
            compare_row(rt, alloc, of, &index, number, row, tally)?;
        }
    }
    Ok(())
}

// Compares the worlds from one number to before another, by so many threads: many answers, faults and rows among them.
fn compare_worlds(
    rt: &(impl Abort + Threads + Sync),
    alloc: Global,
    first: u64,
    end: u64,
    threads: usize,
) -> Result<(), Fail> {
    let (script, plan) = compiled(rt, alloc)?;
    let mut tally = Tally {
        compared: 0,
        faulty: 0,
        rows: 0,
    };
    for number in first..end {
        compare_world(rt, alloc, &script, &plan, number, threads, &mut tally)?;
    }
    assert!(rt; tally.compared > 100_000);
    assert!(rt; tally.faulty > 1_000);
    assert!(rt; tally.rows > 10_000);
    Ok(())
}

#[test]
fn indices_of_one_thread_answer_as_scans(rt: HostRuntime) -> Result<(), Fail> {
    compare_worlds(&rt, rt.alloc(), 0, 1_000, 1)
}

#[test]
fn indices_of_several_threads_answer_as_scans(rt: HostRuntime) -> Result<(), Fail> {
    compare_worlds(&rt, rt.alloc(), 1_000, 2_000, 4)
}

// The ways of a plan's nodes, so that each way is compared.
#[test]
fn each_way_is_compared(rt: HostRuntime) -> Result<(), Fail> {
    let (_, plan) = compiled(&rt, rt.alloc())?;
    let nodes = plan.plan().nodes.as_slice();
    for way in [
        Way::Key,
        Way::Range,
        Way::Sweep,
        Way::Scan,
        Way::Nearest,
        Way::Circle,
    ] {
        assert!(rt;
            nodes.iter().any(|node| matches!(node, Node::Agg { way: other, .. } if *other == way))
        );
    }
    for way in [
        EffectWay::Key,
        EffectWay::Slab,
        EffectWay::Scan,
        EffectWay::Area,
    ] {
        assert!(rt;
            nodes.iter().any(
                |node| matches!(node, Node::Effect { way: other, .. } if *other == way)
            )
        );
    }
    Ok(())
}
