//! The answers of an extreme for all acting rows.
ghost use Rattle.std.specs.Prelude.{◌≡◌, ◌<◌, ◌≤◌, All, length, IfOk};
ghost use Rattle.key_table.specs.Keys.{keys_of};
ghost use Rattle.row_groups.specs.Groups.{IsGroups};
ghost use Rattle.group_sweeps.specs.Asks.{groups_asked};
ghost use Rattle.group_sweeps.specs.Finds.{FindsAll, point_by};
ghost use Rattle.group_sweeps.specs.Laid.{IsLaid};
ghost use Rattle.group_sweeps.specs.Laying.{AreGroupsLaid};
ghost use Rattle.group_sweeps.specs.Swept.{swept_value};

use crate::ask::Ask;
use crate::found::{Found, value_found};
use crate::group_sweep::{Sweeping, sweep_groups, sweep_sole};
use crate::sides::Sides;
use env_table::World;
use extreme_sweep::LaidPoints;
use key_table::KeyTable;
use row_groups::{Groups, Means, link_groups};
use sgl_typed::TAgg;
use sgl_values::{Fault, Memory, ROWS_MAX, Val};
use std::alloc::Global;
use std::thread::Threads;

/// The answers of a use of an extreme, four bytes a row, and the faults among them.
#[derive(Debug, Drop)]
pub struct Swept {
    pub(crate) found: Vec<Found>,
    pub(crate) faults: Vec<Fault>,
}

impl Swept {
    /// The answer for an acting row. It takes no memory.
    pub fn value(&self, world: &World, agg: &TAgg, row: u32) -> Val
        ensures { result ≡ swept_value self.now agg.now world.now.world row }
    {
        let found = match self.found.get(row as usize) {
            None => Found::Nothing,
            Some(found) => *found,
        };
        value_found(world, agg, self.faults.as_slice(), found)
    }
}

/// What is found for each row, where no right side has a fault.
pub(crate) fn sweep_asks<R: Threads + Sync>(
    means: &Means<R>,
    world: &World,
    keys: &KeyTable,
    sides: Sides,
    groups: &Groups,
    laid: &[LaidPoints],
    asks: &[Ask],
) -> Result<Vec<Found>, Memory>
    requires keys { keys.now ≡ keys_of world.now.world }
    requires few { length asks.now ≤ ROWS_MAX }
    requires groups { IsGroups groups.now groups.now.attrs world.now.world.rows }
    requires laid { AreGroupsLaid (point_by sides world.now.world) groups.now.lists laid.now }
    requires below { All (λ group. group < length groups.now.lists) (groups_asked asks.now) }
    ensures size { IfOk result (λ found. length found.items ≡ length asks.now) }
    ensures each { IfOk result (λ found. FindsAll world.now.world (point_by sides world.now.world) groups.now.lists asks.now (length groups.now.lists) found.items) }
{
    let sweeping = Sweeping {
        world,
        keys,
        sides,
        groups,
        laid,
        asks,
    };
    if groups.len() == 1 {
        sweep_sole(means, &sweeping)
    } else {
        sweep_linked(means, &sweeping)
    }
}

// The same of groups, whose rows that ask are linked.
fn sweep_linked<R: Threads + Sync>(means: &Means<R>, of: &Sweeping) -> Result<Vec<Found>, Memory>
    requires of { IsLaid of.now }
    requires few { length of.now.asks.now ≤ ROWS_MAX }
    requires below { All (λ group. group < length of.now.groups.now.lists) (groups_asked of.now.asks.now) }
    ensures size { IfOk result (λ found. length found.items ≡ length of.now.asks.now) }
    ensures each { IfOk result (λ found. FindsAll of.now.world.now.world (point_by of.now.sides of.now.world.now.world) of.now.groups.now.lists of.now.asks.now (length of.now.groups.now.lists) found.items) }
{
    let alloc = means.alloc;
    let numbers = groups_of(alloc, of.asks)?;
    let links = link_groups(alloc, numbers.as_slice(), of.groups.len())?;
    let mut found = vec![in alloc; Found::Nothing; of.asks.len()]?;
    sweep_groups(means, of, &links, found.as_mut_slice())?;
    Ok(found)
}

// The groups that rows ask for.
fn groups_of(alloc: Global, asks: &[Ask]) -> Result<Vec<u32>, Memory>
    ensures { IfOk result (λ groups. groups.items ≡ groups_asked asks.now) }
{
    let groups = asks.iter().map(|ask| ask.group).collect(alloc)?;
    Ok(groups)
}
