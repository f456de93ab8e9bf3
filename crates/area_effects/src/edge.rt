//! The edges of boxes that a sweep meets.
ghost use Rattle.std.specs.Prelude.{◌≡◌, ◌≤◌, length};
ghost use Rattle.area_effects.specs.Ranks.{IsRanked};

use crate::area_box::AreaBox;
use crate::axis::Axis;

/// One of the two edges of a box that a sweep along x meets. `place` is how many numbers x are
/// before it, and the ranks of y from `low` to before `high` are those of the box. `amount` and
/// `count` are what the edge adds there: the box's amount and 1 where it opens, and their negatives
/// where it closes.
#[derive(Clone, Copy, Debug)]
pub(crate) struct Edge {
    pub(crate) place: u32,
    pub(crate) low: u32,
    pub(crate) high: u32,
    pub(crate) amount: i64,
    pub(crate) count: i64,
}

impl Edge {
    ghost use Rattle.area_effects.specs.Edges.{IsEdge, opening, closing};

    /// The edge where a box opens and the one where it closes. Where the ends of a box are crossed,
    /// both are at one place, or they have no rank.
    pub(crate) fn both_of(area: &AreaBox, xs: &Axis, ys: &Axis) -> (Edge, Edge)
        requires xs { IsRanked xs.now.numbers.items }
        requires ys { IsRanked ys.now.numbers.items }
        ensures opening { result.0 ≡ opening xs.now.numbers.items ys.now.numbers.items area.now }
        ensures closing { result.1 ≡ closing xs.now.numbers.items ys.now.numbers.items area.now }
        ensures opens { IsEdge result.0 }
        ensures closes { IsEdge result.1 }
    {
        let place = xs.below(area.x1);
        let low = ys.below(area.y1);
        let high = ys.through(area.y2).max(low);
        let amount = area.amount.get();
        let opening = Edge {
            place,
            low,
            high,
            amount,
            count: 1,
        };
        let closing = Edge {
            place: xs.through(area.x2).max(place),
            low,
            high,
            amount: -amount,
            count: -1,
        };
        (opening, closing)
    }
}
