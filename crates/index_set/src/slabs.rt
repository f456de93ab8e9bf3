//! The rows of groups in strips, each once, shared by the clauses that ask for the same.
ghost use Rattle.std.specs.Prelude.{◌≡◌, ◌≤◌, ◌+◌, true, length, map, slice_get, slice_index_or, IfOk, IfSome, None, OnOk, Some};
ghost use Rattle.battle_algebra.specs.Ways.{x_of, y_of};
ghost use Rattle.test_boxes.specs.Readings.{grouping};
ghost use Rattle.test_boxes.specs.declared.reading.Reading.TheVariants.{Away, Alike};
ghost use Rattle.index_set.specs.Left.{how_left, IsLeft};
ghost use Rattle.index_set.specs.Shelves.{IsPartition, IsShelf, IsShelfOf};
ghost use Rattle.index_set.specs.Slabs.{tests_of, AreAllUsed, AreOwnUse, AreSlabs, AreUsedTo, IsSlab, IsSorted, IsTaken, IsUse, KeepsSorts};

use crate::kept::kept_at;
use crate::left::{Left, stand_others};
use crate::set::IndexOf;
use crate::shelf::Shelf;
use crate::slab::{Slab, SlabUse};
use crate::sorting::Sorting;
use crate::source::Source;
use battle_algebra::{EffectWay, Node, clause_at, first_range, next_range};
use env_table::World;
use group_sweeps::Means;
use row_groups::SortedGroups;
use sgl_typed::{Attr, TScript, TTest};
use sgl_values::{List, Memory};
use std::alloc::Global;
use std::thread::Threads;
use test_boxes::{GroupingAttrs, Reading, groups_by};

/// All sorted groups, and by number of node which of them the clause of an effect reads.
#[derive(Debug, Drop)]
pub(crate) struct Slabs {
    pub(crate) sorts: List<Sorting>,
    pub(crate) nodes: Vec<Option<SlabUse>>,
}

// Whether at most four tests number groups.
fn has_few(tests: &[TTest]) -> bool
    ensures { result ≡ true → length (grouping Away tests.now) ≤ 4 }
{
    count_grouping(tests) <= 4
}

fn count_grouping(tests: &[TTest]) -> usize
    ensures { result ≡ length (grouping Away tests.now) }
{
    let mut count = 0;
    for test in tests {
        if groups_by(Reading::Away, test) {
            count += 1;
        }
    }
    count
}

impl Slabs {
    /// None.
    pub(crate) fn new(alloc: Global, shelf: &Shelf, of: &Source) -> Slabs
        ensures { AreUsedTo result shelf.now of.now 0 }
    {
        let _ = shelf;
        let _ = of;
        Slabs {
            sorts: List::new(alloc),
            nodes: Vec::new(alloc),
        }
    }

    /// The sorted groups for the clause of a node, which has these tests. It takes no memory, and reads no test.
    pub(crate) fn slab<'a>(
        &'a self,
        shelf: &'a Shelf,
        of: IndexOf,
        node: u32,
        tests: &[TTest],
    ) -> Option<Slab<'a>>
        requires used { AreAllUsed self.now shelf.now of.world.now.world of.script.now of.plan.now.plan.nodes }
        requires tests { tests_of of.script.now (slice_get of.plan.now.plan.nodes node) ≡ Some tests.now }
        ensures { IfSome result (λ slab. IsSlab slab tests.now of.entry.world.now.world) }
    {
        let _ = tests;
        let found = *kept_at(&self.nodes, node)?;
        let mut slab = self.sorted_groups(shelf, of.world, found.number)?;
        slab.left = found.left;
        Some(slab)
    }

    // The use of the sorted groups with this number by tests, of which these are left, where they are
    // for them.
    fn use_of(
        &self,
        shelf: &Shelf,
        world: &World,
        number: usize,
        left: Left,
        tests: &[TTest],
    ) -> Option<SlabUse>
        requires slabs { AreSlabs self.now shelf.now world.now.world }
        requires left { IsLeft left (x_of tests.now) (y_of tests.now) tests.now }
        requires few { length (grouping (how_left left) tests.now) ≤ 4 }
        ensures { IfSome result (λ found. IsUse found self.now shelf.now tests.now) }
    {
        let slab = self.sorted_groups(shelf, world, number)?;
        if slab.is_for(tests, left.reading()) {
            Some(SlabUse { number, left })
        } else {
            None
        }
    }

    // The sorted groups with this number.
    fn sorted_groups<'a>(
        &'a self,
        shelf: &'a Shelf,
        world: &World,
        number: usize,
    ) -> Option<Slab<'a>>
        requires { AreSlabs self.now shelf.now world.now.world }
        ensures sorted { IfSome result (λ slab. IsSorted slab world.now.world) }
        ensures taken { IfSome result (λ slab. IsTaken slab self.now shelf.now number) }
    {
        let _ = world;
        let sorting = self.sorts.get(number)?;
        let groups = shelf.partitions.get(sorting.groups)?;
        Some(Slab {
            groups,
            axis: sorting.axis,
            across: sorting.across,
            sorted: &sorting.sorted,
            left: Left::All,
        })
    }

    // Sorted groups for the next node.
    fn add_node<R: Threads + Sync>(
        &mut self,
        shelf: &Shelf,
        means: &Means<R>,
        of: &Source,
        node: usize,
    ) -> Result<(), Memory>
        requires shelf { IsShelfOf shelf.now of.now }
        requires used { AreUsedTo self.old shelf.now of.now node }
        ensures { OnOk result (AreUsedTo self.new shelf.now of.now (node + 1)) }
    {
        let one = self.use_at(shelf, means, of, node)?;
        self.nodes.push(one)?;
        Ok(())
    }

    // Which of them the clause of a node reads, where it is an effect of the way `Slab`.
    fn use_at<R: Threads + Sync>(
        &mut self,
        shelf: &Shelf,
        means: &Means<R>,
        of: &Source,
        node: usize,
    ) -> Result<Option<SlabUse>, Memory>
        requires shelf { IsShelfOf shelf.now of.now }
        requires slabs { AreSlabs self.old shelf.now of.now.world.now.world }
        ensures own { IfOk result (λ one. AreOwnUse one self.new shelf.now of.now.script.now (slice_get of.now.plan.now.nodes node)) }
        ensures slabs { OnOk result (AreSlabs self.new shelf.now of.now.world.now.world) }
        ensures keeps { OnOk result (KeepsSorts self.old self.new) }
    {
        match node_tests(of, node) {
            None => Ok(None),
            Some(tests) => {
                let one = self.use_for(shelf, means, of.world, tests)?;
                Ok(one)
            }
        }
    }

    // The same of tests.
    fn use_for<R: Threads + Sync>(
        &mut self,
        shelf: &Shelf,
        means: &Means<R>,
        world: &World,
        tests: &[TTest],
    ) -> Result<Option<SlabUse>, Memory>
        requires few { length (grouping Away tests.now) ≤ 4 }
        requires shelf { IsShelf shelf.now world.now.world.rows }
        requires slabs { AreSlabs self.old shelf.now world.now.world }
        ensures own { IfOk result (λ one. IfSome one (λ found. IsUse found self.new shelf.now tests.now)) }
        ensures slabs { OnOk result (AreSlabs self.new shelf.now world.now.world) }
        ensures keeps { OnOk result (KeepsSorts self.old self.new) }
    {
        let left = left_for(shelf, tests);
        let sorting = self.sorting_for(shelf, means, world, tests, left.reading())?;
        match sorting {
            None => Ok(None),
            Some(number) => Ok(self.use_of(shelf, world, number, left, tests)),
        }
    }

    // The number of the sorted groups for these tests as they are read, which are made where there are none and their
    // partition is there.
    fn sorting_for<R: Threads + Sync>(
        &mut self,
        shelf: &Shelf,
        means: &Means<R>,
        world: &World,
        tests: &[TTest],
        how: Reading,
    ) -> Result<Option<usize>, Memory>
        requires few { length (grouping how tests.now) ≤ 4 }
        requires shelf { IsShelf shelf.now world.now.world.rows }
        requires slabs { AreSlabs self.old shelf.now world.now.world }
        ensures slabs { OnOk result (AreSlabs self.new shelf.now world.now.world) }
        ensures keeps { OnOk result (KeepsSorts self.old self.new) }
    {
        let attrs = GroupingAttrs::of(tests, how);
        let axis = first_range(tests);
        let across = next_range(axis, tests);
        match shelf.find_groups(attrs.as_slice()) {
            None => Ok(None),
            Some(groups) => {
                let number = self.sorting_of(shelf, means, world, groups, axis, across)?;
                Ok(Some(number))
            }
        }
    }

    // The same of a partition, by its number, and two attributes.
    fn sorting_of<R: Threads + Sync>(
        &mut self,
        shelf: &Shelf,
        means: &Means<R>,
        world: &World,
        groups: usize,
        axis: Option<Attr>,
        across: Option<Attr>,
    ) -> Result<usize, Memory>
        requires groups { IsPartition shelf.now groups }
        requires shelf { IsShelf shelf.now world.now.world.rows }
        requires slabs { AreSlabs self.old shelf.now world.now.world }
        ensures slabs { OnOk result (AreSlabs self.new shelf.now world.now.world) }
        ensures keeps { OnOk result (KeepsSorts self.old self.new) }
    {
        if let Some(number) = self.find(groups, axis, across) {
            return Ok(number);
        }
        let number = self.sorts.len();
        let partition = &shelf.partitions.as_slice()[groups];
        let Means { rt, threads, alloc } = *means;
        let sorted = SortedGroups::build(rt, threads, alloc, world, partition, axis, across)?;
        self.sorts.push(Sorting {
            groups,
            axis,
            across,
            sorted,
        })?;
        Ok(number)
    }

    fn find(&self, groups: usize, axis: Option<Attr>, across: Option<Attr>) -> Option<usize> {
        self.sorts.as_slice().iter().position(|sorting| {
            sorting.groups == groups && sorting.axis == axis && sorting.across == across
        })
    }
}

// Which tests strips leave: none, where there are few groups by the value of an unequal test and strips of all but one
// stand for all tests; else those that strips of the groups by the equal tests leave.
fn left_for(shelf: &Shelf, tests: &[TTest]) -> Left
    ensures { IsLeft result (x_of tests.now) (y_of tests.now) tests.now }
{
    if stand_others(tests) && has_few_others(shelf, tests) {
        return Left::Others;
    }
    let axis = first_range(tests);
    Left::of(axis, next_range(axis, tests), tests)
}

// Whether there are groups by the value of an unequal test, and few.
fn has_few_others(shelf: &Shelf, tests: &[TTest]) -> bool
    requires { length (grouping Alike tests.now) ≤ 4 }
{
    let attrs = GroupingAttrs::of(tests, Reading::Alike);
    match shelf.find_groups(attrs.as_slice()) {
        None => false,
        Some(number) => shelf.has_few(number),
    }
}

/// Sorted groups for the clause of each effect of the ways `Slab` and `Area`, by number of node. The partitions are on the shelf; a clause
/// whose partition is not has none.
pub(crate) fn index_slabs<R: Threads + Sync>(
    shelf: &Shelf,
    means: &Means<R>,
    of: &Source,
) -> Result<Slabs, Memory>
    requires { IsShelfOf shelf.now of.now }
    ensures { IfOk result (λ slabs. AreUsedTo slabs shelf.now of.now (length of.now.plan.now.nodes)) }
{
    let mut slabs = Slabs::new(means.alloc, shelf, of);
    for node in 0..of.nodes().len() {
        slabs.add_node(shelf, means, of, node)?;
    }
    Ok(slabs)
}

/// The tests of an effect of the way `Slab` or `Area`, where at most four of them number groups.
pub(crate) fn slab_tests<'a>(script: &'a TScript, node: &Node) -> Option<&'a [TTest]>
    ensures few { IfSome result (λ tests. length (grouping Away tests.now) ≤ 4) }
    ensures tests { IfSome result (λ tests. tests_of script.now (Some node.now) ≡ Some tests.now) }
{
    match node {
        Node::Effect {
            act,
            way: EffectWay::Slab | EffectWay::Area,
        } => {
            let clause = clause_at(script, act)?;
            let tests = clause.tests.as_slice();
            if has_few(tests) { Some(tests) } else { None }
        }
        _ => None,
    }
}

// The same of a node, by its number.
fn node_tests<'a>(of: &Source<'a>, node: usize) -> Option<&'a [TTest]>
    ensures few { IfSome result (λ tests. length (grouping Away tests.now) ≤ 4) }
    ensures tests { IfSome result (λ tests. tests_of of.now.script.now (slice_get of.now.plan.now.nodes node) ≡ Some tests.now) }
{
    slab_tests(of.script, of.nodes().get(node)?)
}
