//! Circles, and the squares of cells around them.
ghost use Rattle.std.specs.Prelude.{◌≡◌, IfSome};
ghost use Rattle.cell_keep.specs.Covers.{is_counted, IsSquareOf};

use crate::grid::is_same_group;
use crate::point::{Group, KeepPoint};
use crate::span::{Span, Square};
use sgl_values::{Num, is_in_circle, squared_distance};

/// What is asked: the points of a group in a circle.
#[derive(Clone, Copy)]
pub(crate) struct Circle {
    pub(crate) x: Num,
    pub(crate) y: Num,
    pub(crate) radius: Num,
    pub(crate) group: Group,
}

impl Circle {
    /// Whether a point is of the group and lies in the circle.
    pub(crate) fn counts(&self, point: &KeepPoint) -> bool
        ensures { result ≡ is_counted self.now point.now }
    {
        is_same_group(&point.group, &self.group)
            && is_in_circle(
                self.radius,
                squared_distance(self.x, self.y, point.x, point.y),
            )
    }

    /// The cells of the square around the circle, where there are at most so many.
    pub(crate) fn square(&self, most: usize) -> Option<Square>
        ensures { IfSome result (IsSquareOf self.now) }
    {
        let across = Span::around(self.x, self.radius)?;
        let up = Span::around(self.y, self.radius)?;
        let cells = u64::from(across.count).checked_mul(u64::from(up.count))?;
        if cells <= most as u64 {
            Some(Square { across, up })
        } else {
            None
        }
    }
}
