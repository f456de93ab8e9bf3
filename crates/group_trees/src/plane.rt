//! The attributes that make a row a point of the plane.
ghost use Rattle.std.specs.Prelude.{◌≡◌};
ghost use Rattle.group_trees.specs.Nearby.{plane_of as plane_of_fold};
ghost use Rattle.group_trees.specs.Points.{point_of};

use env_table::World;
use nearest_tree::NearPoint;
use row_groups::{PointAttrs, along};
use sgl_evaluate::attribute_of;
use sgl_typed::{Attr, TAgg};
use test_boxes::other_of;

/// The attributes that make a row a point of the plane, and the one by whose value points are left out; without it all
/// points have the value 0.
#[derive(Clone, Copy, Debug, PartialEq, Eq)]
pub struct Plane {
    pub x: Attr,
    pub y: Attr,
    pub apart: Option<Attr>,
}

/// The plane in which an aggregate asks for the nearest row: its two attributes, and the one of its first unequal test.
pub fn plane_of(agg: &TAgg) -> Plane
    ensures { result ≡ plane_of_fold agg.now }
{
    Plane {
        x: agg.attr,
        y: agg.second,
        apart: other_of(agg.tests.as_slice()),
    }
}

impl PointAttrs for Plane {
    type Point = NearPoint;

    ghost make = { point_of };

    fn point_at(&self, world: &World, row: u32) -> NearPoint {
        NearPoint {
            x: attribute_of(world, row, self.x),
            y: attribute_of(world, row, self.y),
            key: world.key(row),
            group: along(world, row, self.apart).get(),
        }
    }
}
