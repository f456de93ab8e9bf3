//! The points of groups, laid out for sweeps.
ghost use Rattle.std.specs.Prelude.{◌<◌, length, IfOk};
ghost use Rattle.row_groups.specs.Groups.{IsGroups};
ghost use Rattle.group_sweeps.specs.Finds.{point_by};
ghost use Rattle.group_sweeps.specs.Laying.{AreGroupsLaid, IsGroupLaid};

use crate::sides::Sides;
use env_table::World;
use extreme_sweep::LaidPoints;
use row_groups::{Groups, Means, each_group, group_points};
use sgl_values::Memory;
use std::thread::Threads;

// So many groups are laid out before it is known which of them are asked for.
const FEW_GROUPS: u32 = 64;

/// The points of each group, laid out; of none where there are many groups, as few may be asked for then. Threads share the
/// groups and, where these are fewer, the work on each.
pub(crate) fn lay_groups<R: Threads + Sync>(
    means: &Means<R>,
    world: &World,
    sides: Sides,
    groups: &Groups,
) -> Result<Vec<LaidPoints>, Memory>
    requires { IsGroups groups.now groups.now.attrs world.now.world.rows }
    ensures { IfOk result (λ laid. AreGroupsLaid (point_by sides world.now.world) groups.now.lists laid.items) }
{
    let count = groups.len();
    if count > FEW_GROUPS {
        return Ok(Vec::new(means.alloc));
    }
    let within = means.within(count);
    each_group(
        means,
        count,
        |group: u32| -> Result<LaidPoints, Memory>
            requires groups { IsGroups groups.now groups.now.attrs world.now.world.rows }
            requires group { group < length groups.now.lists }
            ensures { IfOk result (λ laid. IsGroupLaid (point_by sides world.entry.now.world) groups.entry.now.lists group laid) }
        { lay_group(&within, world, sides, groups, group) },
    )
}

/// The points of a group, laid out.
pub(crate) fn lay_group<R: Threads + Sync>(
    means: &Means<R>,
    world: &World,
    sides: Sides,
    groups: &Groups,
    group: u32,
) -> Result<LaidPoints, Memory>
    requires groups { IsGroups groups.now groups.now.attrs world.now.world.rows }
    requires group { group < length groups.now.lists }
    ensures { IfOk result (λ laid. IsGroupLaid (point_by sides world.now.world) groups.now.lists group laid) }
{
    let Means { rt, threads, alloc } = *means;
    let points = group_points(alloc, world, groups, group, &sides)?;
    LaidPoints::build(rt, threads, alloc, points.as_slice())
}
