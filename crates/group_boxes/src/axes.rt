//! The attributes that make a row a point with a weight.
ghost use Rattle.group_boxes.specs.Points.{point_of};

use env_table::World;
use range_aggregate::Point;
use row_groups::{PointAttrs, along};
use sgl_typed::Attr;

/// The attributes that make a row a point with a weight; along an axis that is missing each row has the number 0, and without
/// an attribute that weighs it the weight 0, as where points are only counted.
#[derive(Clone, Copy, Debug, PartialEq, Eq)]
pub struct Axes {
    pub x: Option<Attr>,
    pub y: Option<Attr>,
    pub weigh: Option<Attr>,
}

impl PointAttrs for Axes {
    type Point = Point;

    ghost make = { point_of };

    fn point_at(&self, world: &World, row: u32) -> Point {
        Point {
            x: along(world, row, self.x).get(),
            y: along(world, row, self.y).get(),
            weight: along(world, row, self.weigh),
        }
    }
}
