//! A range index for each group of rows.
ghost use Rattle.std.specs.Prelude.{◌≡◌, ◌<◌, ◌↔◌, [], length, slice_index_or, IfOk, IsTrue, MatchOption};
ghost use Rattle.range_aggregate.specs.Boxes.{count_of, sum_of};
ghost use Rattle.row_groups.specs.Groups.{IsGroups};
ghost use Rattle.row_groups.specs.Listed.{IsListOf};
ghost use Rattle.group_boxes.specs.Points.{count_in as count_in_group, point_of, points_under, IsBoxes};

use crate::axes::Axes;
use env_table::World;
use range_aggregate::RangeIndex;
use row_groups::{Groups, Means, each_group, group_points};
use sgl_values::{List, Memory, Num};
use std::alloc::Global;
use std::marker::Model;
use std::thread::Threads;
use test_boxes::Span;

/// The rows of a world as points, with a range index for each group of a partition. Contracts see the axes, and the points
/// of each group.
#[derive(Debug, Drop)]
pub struct Boxes {
    axes: Axes,
    indexes: List<RangeIndex>,
}

impl Model for Boxes {
    ghost use Rattle.group_boxes.specs.Points.{Indexed};

    ghost Value = { Indexed };

    ghost view = { λ it. record { axes = it.axes; lists = it.indexes } };
}

impl Boxes {
    /// The points of the rows of each group. It takes n log n time for n rows. At most so many threads share the groups, or
    /// the work for a single one; one where it is 0. `Memory` is its only refusal.
    pub fn build(
        rt: &(impl Threads + Sync),
        threads: usize,
        alloc: Global,
        world: &World,
        groups: &Groups,
        axes: Axes,
    ) -> Result<Boxes, Memory>
        requires { IsGroups groups.now groups.now.attrs world.now.world.rows }
        ensures axes { IfOk result (λ boxes. boxes.axes ≡ axes) }
        ensures held { IfOk result (λ boxes. IsBoxes groups.now boxes world.now.world.rows) }
    {
        let means = Means { rt, threads, alloc };
        let within = means.within(groups.len());
        let indexes = each_group(
            &means,
            groups.len(),
            |group: u32| -> Result<RangeIndex, Memory>
                requires groups { IsGroups groups.now groups.now.attrs world.now.world.rows }
                requires group { group < length groups.now.lists }
                ensures { IfOk result (IsListOf (point_of axes) world.entry.now.world groups.entry.now group) }
            {
                let points = group_points(alloc, world, groups, group, &axes)?;
                RangeIndex::build(rt, within.threads, alloc, points.as_slice())
            },
        )?;
        let indexes = List::from_vec(indexes);
        Ok(Boxes { axes, indexes })
    }

    /// Whether the points are made by these axes.
    pub fn is_along(&self, axes: Axes) -> bool
        ensures { IsTrue result ↔ (self.now.axes ≡ axes) }
    {
        self.axes == axes
    }

    /// How many points of the group with a key lie in a box: none, where there is no such group. It takes no memory.
    pub fn count(&self, groups: &Groups, key: &[Num; 4], across: Span, down: Span) -> u32
        ensures { result ≡ count_of across.low across.high down.low down.high (points_under groups.now self.now key.now) }
    {
        match self.index_under(groups, key) {
            None => 0,
            Some(index) => index.count(across.low, across.high, down.low, down.high),
        }
    }

    /// How many points of the group with this number lie in a box: none, where there is no such group. It takes no memory.
    pub fn count_in(&self, group: u32, across: Span, down: Span) -> u32
        ensures { result ≡ count_in_group self.now across down group }
    {
        match self.index_in(group) {
            None => 0,
            Some(index) => index.count(across.low, across.high, down.low, down.high),
        }
    }

    /// The exact sum of the weights of those of the group with a key.
    pub fn sum(&self, groups: &Groups, key: &[Num; 4], across: Span, down: Span) -> i128
        ensures { result ≡ sum_of across.low across.high down.low down.high (points_under groups.now self.now key.now) }
    {
        match self.index_under(groups, key) {
            None => 0,
            Some(index) => index.sum(across.low, across.high, down.low, down.high),
        }
    }

    // The index of the group with a key.
    fn index_under(&self, groups: &Groups, key: &[Num; 4]) -> Option<&RangeIndex>
        ensures { MatchOption result (points_under groups.now self.now key.now ≡ []) (λ index. index.now ≡ points_under groups.now self.now key.now) }
    {
        match groups.number(key) {
            None => None,
            Some(group) => self.index_in(group),
        }
    }

    // The index of the group with this number.
    fn index_in(&self, group: u32) -> Option<&RangeIndex>
        ensures { MatchOption result (slice_index_or self.now.lists group [] ≡ []) (λ index. index.now ≡ slice_index_or self.now.lists group []) }
    {
        self.indexes.get(group as usize)
    }
}
