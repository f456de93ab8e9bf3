//! A sweep along x over the edges of boxes.
ghost use Rattle.std.specs.Prelude.{◌≡◌, ℕ, ◌+◌, ◌*◌, ◌<◌, ◌≤◌, length, take, All, vec_capacity, IfOk};
ghost use Rattle.std.specs.List.Sorted.{IsNonDecreasingBy, IsPermutation};
ghost use Rattle.area_effects.specs.Edges.{IsEdge, edges_of, covered};
ghost use Rattle.area_effects.specs.Ranks.{IsRanked};

use crate::area_box::AreaBox;
use crate::axis::Axis;
use crate::edge::Edge;
use crate::fenwick::Fenwick;
use sgl_values::{Memory, ROWS_MAX};
use std::alloc::Global;

/// A sweep along x over the edges of boxes, by rising place. The trees stand for what the edges
/// before `next` add up to at each rank of y.
#[derive(Debug, Drop)]
pub(crate) struct Sweep {
    edges: Vec<Edge>,
    next: usize,
    amounts: Fenwick,
    counts: Fenwick,
}

impl Sweep {
    ghost use Rattle.area_effects.specs.Rooms.{HasRoom};
    ghost use Rattle.area_effects.specs.Sweeping.{IsSweep, GoesOn, StandsAt};

    /// A sweep with room for so many points and boxes. `Memory` is its only refusal.
    pub(crate) fn with_room(alloc: Global, points: u32, boxes: u32) -> Result<Sweep, Memory>
        requires points { points ≤ ROWS_MAX }
        requires boxes { boxes ≤ ROWS_MAX }
        ensures { IfOk result (HasRoom points boxes) }
    {
        let edges = Vec::with_capacity(alloc, 2 * boxes as usize)?;
        let amounts = Fenwick::with_room(alloc, points as usize)?;
        let counts = Fenwick::with_room(alloc, points as usize)?;
        Ok(Sweep {
            edges,
            next: 0,
            amounts,
            counts,
        })
    }

    /// Begins before the first edge of these boxes. It takes no memory, as there is room for them.
    pub(crate) fn begin(&mut self, xs: &Axis, ys: &Axis, boxes: &[AreaBox])
        requires xs { IsRanked xs.now.numbers.items }
        requires ys { IsRanked ys.now.numbers.items }
        requires few_boxes { length boxes.now ≤ ROWS_MAX }
        requires room { HasRoom (length ys.now.numbers.items) (length boxes.now) self.old }
        ensures sweep { IsSweep self.new }
        ensures first { self.new.next ≡ 0 }
        ensures edges { IsPermutation (edges_of xs.now.numbers.items ys.now.numbers.items boxes.now) self.new.edges.items }
        ensures ranks { length self.new.amounts.nodes.items ≡ length ys.now.numbers.items + 1 }
        ensures room { (points many : ℕ) → HasRoom points many self.old → HasRoom points many self.new }
    {
        put_edges(&mut self.edges, xs, ys, boxes);
        self.next = 0;
        self.amounts.clear(ys.numbers.len());
        self.counts.clear(ys.numbers.len());
    }

    /// Passes the edges up to a place, which is not before the last one.
    pub(crate) fn advance(&mut self, place: u32)
        requires sweep { IsSweep self.old }
        requires passed { All (λ edge. edge.place ≤ place) (take self.old.next self.old.edges.items) }
        ensures goes_on { GoesOn self.old self.new }
        ensures stands { StandsAt place self.new }
    {
        while self.next < self.edges.len() && self.edges[self.next].place <= place {
            self.pass();
        }
    }

    // Passes the next edge.
    fn pass(&mut self)
        requires sweep { IsSweep self.old }
        requires left { self.old.next < length self.old.edges.items }
        ensures goes_on { GoesOn self.old self.new }
        ensures next { self.new.next ≡ self.old.next + 1 }
    {
        let edge = self.edges[self.next];
        self.amounts.add_between(edge.low, edge.high, edge.amount);
        self.counts.add_between(edge.low, edge.high, edge.count);
        self.next += 1;
    }

    /// What the amounts of the passed edges come to at a rank.
    pub(crate) fn amount_at(&self, rank: u32) -> i64
        requires sweep { IsSweep self.now }
        requires inside { rank + 1 < length self.now.amounts.nodes.items }
        ensures { result ≡ covered (λ edge. edge.amount) (take self.now.next self.now.edges.items) (rank + 1) }
    {
        self.amounts.sum_before(rank + 1)
    }

    /// What their counts come to.
    pub(crate) fn count_at(&self, rank: u32) -> i64
        requires sweep { IsSweep self.now }
        requires inside { rank + 1 < length self.now.amounts.nodes.items }
        ensures { result ≡ covered (λ edge. edge.count) (take self.now.next self.now.edges.items) (rank + 1) }
    {
        self.counts.sum_before(rank + 1)
    }
}

// Puts the edges of boxes in place of others, by rising place.
fn put_edges(edges: &mut Vec<Edge>, xs: &Axis, ys: &Axis, boxes: &[AreaBox])
    requires xs { IsRanked xs.now.numbers.items }
    requires ys { IsRanked ys.now.numbers.items }
    requires room { 2 * length boxes.now ≤ vec_capacity edges.old }
    ensures same { IsPermutation (edges_of xs.now.numbers.items ys.now.numbers.items boxes.now) edges.new.items }
    ensures rising { IsNonDecreasingBy (λ edge. edge.place) edges.new.items }
    ensures edges { All IsEdge edges.new.items }
    ensures room { vec_capacity edges.old ≤ vec_capacity edges.new }
{
    put_in_order(edges, xs, ys, boxes);
    edges.sort_unstable_by_key(|edge| edge.place);
}

// Puts the edges of boxes in place of others, in the order of the boxes.
fn put_in_order(edges: &mut Vec<Edge>, xs: &Axis, ys: &Axis, boxes: &[AreaBox])
    requires xs { IsRanked xs.now.numbers.items }
    requires ys { IsRanked ys.now.numbers.items }
    requires room { 2 * length boxes.now ≤ vec_capacity edges.old }
    ensures edges { edges.new.items ≡ edges_of xs.now.numbers.items ys.now.numbers.items boxes.now }
    ensures each { All IsEdge edges.new.items }
    ensures room { vec_capacity edges.old ≤ vec_capacity edges.new }
{
    edges.clear();
    for area in boxes {
        let (opening, closing) = Edge::both_of(area, xs, ys);
        // They are not refused, as there is room.
        let _ = edges.push(opening);
        let _ = edges.push(closing);
    }
}
