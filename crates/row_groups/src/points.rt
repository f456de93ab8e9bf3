//! The rows of a group as points.
ghost use Rattle.std.specs.Prelude.{◌≡◌, ◌<◌, ◌≤◌, length, IfOk};
ghost use Rattle.sgl_values.specs.World.{Row, row_at};
ghost use Rattle.row_groups.specs.Groups.{rows_in, IsGroups};
ghost use Rattle.row_groups.specs.Listed.{made_of};

use crate::groups::Groups;
use env_table::World;
use sgl_values::{Memory, ROWS_MAX};
use std::alloc::Global;

/// The attributes that make a row a point.
pub trait PointAttrs {
    /// What a row is made.
    type Point: Drop;

    /// What a row is made, by its values.
    ghost make: { Self → Row → Self.Point };

    /// A row as a point.
    fn point_at(&self, world: &World, row: u32) -> Self::Point
        requires { row < length world.now.world.rows }
        ensures { result ≡ make self.now (row_at world.now.world row) };
}

/// The points of the rows of a group, at most 65,536. `Memory` is its only refusal.
pub fn group_points<P: PointAttrs>(
    alloc: Global,
    world: &World,
    groups: &Groups,
    group: u32,
    attrs: &P,
) -> Result<Vec<P::Point>, Memory>
    requires groups { IsGroups groups.now groups.now.attrs world.now.world.rows }
    requires group { group < length groups.now.lists }
    ensures few { IfOk result (λ points. length points.items ≤ ROWS_MAX) }
    ensures points { IfOk result (λ points. points.items ≡ made_of (P.make attrs.now) world.now.world (rows_in groups.now group)) }
{
    let mut points = Vec::new(alloc);
    for row in groups.rows(group) {
        points.push(attrs.point_at(world, row))?;
    }
    Ok(points)
}
