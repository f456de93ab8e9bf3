//! Points at which boxes are added up.
ghost use Rattle.std.specs.Prelude.{◌≡◌, ◌≤◌, length, IfOk};
ghost use Rattle.area_effects.specs.Work.{with_spread};

use crate::area_box::AreaBox;
use crate::layout::Layout;
use crate::point::AreaPoint;
use crate::work::AreaWork;
use sgl_values::{Memory, ROWS_MAX};
use std::alloc::Global;
use std::marker::Model;

/// Points of the plane at which boxes are added up. Contracts see the list of them.
///
/// Boxes are added up by differences along a sweep: along x, each is added where it opens and taken
/// away where it closes, in Fenwick trees over the ranks of y, which are asked at each point. For n
/// points and boxes together that takes n log n time.
#[derive(Debug, Drop)]
pub struct AreaPoints {
    layout: Layout,
}

impl Model for AreaPoints {
    ghost use Rattle.area_effects.specs.declared.point.AreaPoint.{AreaPoint};
    ghost use Rattle.std.specs.Prelude.{List};

    ghost Value = { List AreaPoint };

    ghost use Rattle.area_effects.specs.Layouts.{IsLayout};

    ghost view = { λ it. it.layout.points.items };

    ghost invariant = { λ it. IsLayout it.layout };
}

impl AreaPoints {
    /// At most 65,536 points, any number of which may be equal. `Memory` is the only refusal.
    pub fn build(alloc: Global, points: &[AreaPoint]) -> Result<AreaPoints, Memory>
        requires { length points.now ≤ ROWS_MAX }
        ensures { IfOk result (λ built. built ≡ points.now) }
    {
        let layout = Layout::of(alloc, points)?;
        Ok(AreaPoints { layout })
    }

    /// Puts the spread of each point in place of the last spread in the work: the exact sum of the
    /// amounts, and the number, of the boxes with `x1 <= x <= x2` and `y1 <= y <= y2`. The work has
    /// room for so many points and boxes. It takes no memory.
    pub fn spread(&self, work: &mut AreaWork, boxes: &[AreaBox])
        requires points { length self.now ≤ work.old.points }
        requires boxes { length boxes.now ≤ work.old.boxes }
        ensures { work.new ≡ with_spread work.old boxes.now self.now }
    {
        work.tables.spread(&self.layout, boxes);
    }
}
