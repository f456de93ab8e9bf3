//! The partitions that the sweeps or the effects of a plan read are laid on a shelf.
ghost use Rattle.std.specs.Prelude.{◌≤◌, length, IfSome, OnOk};
ghost use Rattle.test_boxes.specs.Readings.{grouping};
ghost use Rattle.test_boxes.specs.declared.reading.Reading.TheVariants.{Away};
ghost use Rattle.index_set.specs.Shelves.{Grows, IsShelf, IsShelfOf};

use crate::left::stand_others;
use crate::shelf::Shelf;
use crate::slabs::slab_tests;
use crate::source::Source;
use crate::sweep_call::sweep_call;
use env_table::World;
use group_sweeps::Means;
use sgl_typed::TTest;
use sgl_values::Memory;
use std::thread::Threads;
use test_boxes::{GroupingAttrs, Reading};

/// What reads partitions: the calls that are swept, or the effects of the ways `Slab` and `Area`.
#[derive(Clone, Copy, Debug)]
pub(crate) enum Readers {
    Sweeps,
    Effects,
}

/// Makes the partition that each node of these readers asks for, where there is none.
pub(crate) fn lay_groups<R: Threads + Sync>(
    shelf: &mut Shelf,
    means: &Means<R>,
    of: &Source,
    readers: Readers,
) -> Result<(), Memory>
    requires { IsShelfOf shelf.old of.now }
    ensures shelf { OnOk result (IsShelfOf shelf.new of.now) }
    ensures grows { OnOk result (Grows shelf.old shelf.new) }
{
    for node in 0..of.nodes().len() {
        if let Some(tests) = grouped_tests(of, readers, node) {
            lay_tests(shelf, means, of.world, readers, tests)?;
        }
    }
    Ok(())
}

// The same for the tests of a node: by the value of an unequal one, where few groups by it serve an effect, else by the
// equal ones.
fn lay_tests<R: Threads + Sync>(
    shelf: &mut Shelf,
    means: &Means<R>,
    world: &World,
    readers: Readers,
    tests: &[TTest],
) -> Result<(), Memory>
    requires few { length (grouping Away tests.now) ≤ 4 }
    requires shelf { IsShelf shelf.old world.now.world.rows }
    ensures shelf { OnOk result (IsShelf shelf.new world.now.world.rows) }
    ensures grows { OnOk result (Grows shelf.old shelf.new) }
{
    if matches!(readers, Readers::Effects) && lay_others(shelf, means, world, tests)? {
        return Ok(());
    }
    let attrs = GroupingAttrs::of(tests, Reading::Away);
    shelf.groups_for(means, world, attrs.as_slice())?;
    Ok(())
}

// Makes the partition by the value of an unequal test, where strips of all its groups but one stand for all tests. Whether
// its groups are few.
fn lay_others<R: Threads + Sync>(
    shelf: &mut Shelf,
    means: &Means<R>,
    world: &World,
    tests: &[TTest],
) -> Result<bool, Memory>
    requires { IsShelf shelf.old world.now.world.rows }
    ensures shelf { OnOk result (IsShelf shelf.new world.now.world.rows) }
    ensures grows { OnOk result (Grows shelf.old shelf.new) }
{
    if stand_others(tests) {
        let attrs = GroupingAttrs::of(tests, Reading::Alike);
        let number = shelf.groups_for(means, world, attrs.as_slice())?;
        Ok(shelf.has_few(number))
    } else {
        Ok(false)
    }
}

// The tests of a node by which rows are in groups, where it is one of the readers.
fn grouped_tests<'a>(of: &Source<'a>, readers: Readers, node: usize) -> Option<&'a [TTest]>
    ensures { IfSome result (λ tests. length (grouping Away tests.now) ≤ 4) }
{
    match readers {
        Readers::Sweeps => {
            let found = sweep_call(of, node)?;
            Some(found.agg.tests.as_slice())
        }
        Readers::Effects => slab_tests(of.script, of.nodes().get(node)?),
    }
}
