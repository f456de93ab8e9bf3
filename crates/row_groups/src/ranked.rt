//! The rows of all groups, each with its group and its value.
ghost use Rattle.std.specs.Prelude.{◌≡◌, ◌<◌, ◌≤◌, ◌++◌, All, length, map, IfOk, OnOk};
ghost use Rattle.row_groups.specs.Ends.{AreEnds};
ghost use Rattle.row_groups.specs.Groups.{rows_in};
ghost use Rattle.row_groups.specs.Ordered.{AreOrdered};
ghost use Rattle.row_groups.specs.Ranked.{ranked_row, AreInOrder, HoldGroups, IsAcross};
ghost use Rattle.std.specs.List.Sorted.{IsPermutation};

use crate::ends::{Ends, places_of, scale_of};
use crate::groups::Groups;
use crate::key::along;
use env_table::World;
use rank_table::{RankTable, elements_at, order_of};
use sgl_typed::Attr;
use sgl_values::{Memory, Num, ROWS_MAX};
use std::alloc::Global;

/// A row of a group, with the value by which the rows of the group are ordered, and a second one.
#[derive(Clone, Copy, Debug)]
pub(crate) struct Ranked {
    pub(crate) group: u32,
    pub(crate) value: Num,
    pub(crate) across: Num,
    pub(crate) row: u32,
}

/// Rows by group, and then by value, and where those between two values begin and end.
#[derive(Debug, Drop)]
pub(crate) struct Ordered {
    pub(crate) ranked: Vec<Ranked>,
    pub(crate) ends: Ends,
}

/// The rows of groups, by group, and then by value.
pub(crate) fn ordered_rows(
    alloc: Global,
    world: &World,
    groups: &Groups,
    axis: Option<Attr>,
    across: Option<Attr>,
) -> Result<Ordered, Memory>
    requires { groups.now.rows ≡ length world.now.world.rows }
    ensures { IfOk result (AreOrdered groups.now axis across world.now.world) }
{
    let all = ranked_rows(alloc, world, groups, axis, across)?;
    let ordered = in_order(alloc, all.as_slice())?;
    Ok(ordered)
}

// The same rows by group, and then by value.
fn in_order(alloc: Global, all: &[Ranked]) -> Result<Ordered, Memory>
    requires few { length all.now ≤ ROWS_MAX }
    requires groups { All (λ ranked. ranked.group < ROWS_MAX) all.now }
    ensures permutation { IfOk result (λ ordered. IsPermutation all.now ordered.ranked.items) }
    ensures rising { IfOk result (λ ordered. AreInOrder ordered.ranked.items) }
    ensures ends { IfOk result (λ ordered. AreEnds ordered.ends ordered.ranked.items) }
{
    let scale = scale_of(all);
    let places = places_of(alloc, &scale, all)?;
    let order = order_of(alloc, places.as_slice())?;
    let places = elements_at(alloc, places.as_slice(), order.as_slice())?;
    let ranked = elements_at(alloc, all, order.as_slice())?;
    let places = RankTable::build(alloc, places)?;
    let ends = Ends { scale, places };
    Ok(Ordered { ranked, ends })
}

/// The rows, in their order.
pub(crate) fn rows_of(alloc: Global, all: &[Ranked]) -> Result<Vec<u32>, Memory>
    ensures { IfOk result (λ rows. rows.items ≡ map (λ ranked. ranked.row) all.now) }
{
    let rows = all.iter().map(|ranked| ranked.row).collect(alloc)?;
    Ok(rows)
}

// All rows, group after group.
fn ranked_rows(
    alloc: Global,
    world: &World,
    groups: &Groups,
    axis: Option<Attr>,
    across: Option<Attr>,
) -> Result<Vec<Ranked>, Memory>
    requires { groups.now.rows ≡ length world.now.world.rows }
    ensures held { IfOk result (λ ranked. HoldGroups ranked.items groups.now.lists axis across world.now.world) }
    ensures each { IfOk result (λ ranked. All (IsAcross across world.now.world) ranked.items) }
    ensures few { IfOk result (λ ranked. length ranked.items ≤ ROWS_MAX) }
    ensures groups { IfOk result (λ ranked. All (λ one. one.group < ROWS_MAX) ranked.items) }
{
    let mut ranked = Vec::with_capacity(alloc, world.len() as usize)?;
    for group in 0..groups.len() {
        groups.are_apart(group);
        push_group(&mut ranked, world, groups, group, axis, across)?;
    }
    Ok(ranked)
}

// Puts the rows of a group after the others.
fn push_group(
    ranked: &mut Vec<Ranked>,
    world: &World,
    groups: &Groups,
    group: u32,
    axis: Option<Attr>,
    across: Option<Attr>,
) -> Result<(), Memory>
    requires rows { groups.now.rows ≡ length world.now.world.rows }
    requires group { group < length groups.now.lists }
    requires each { All (IsAcross across world.now.world) ranked.old.items }
    ensures made { OnOk result (ranked.new.items ≡ ranked.old.items ++ map (ranked_row axis across world.now.world group) (rows_in groups.now group)) }
    ensures each { OnOk result (All (IsAcross across world.now.world) ranked.new.items) }
{
    for row in groups.rows(group) {
        let value = along(world, row, axis);
        let across = along(world, row, across);
        ranked.push(Ranked {
            group,
            value,
            across,
            row,
        })?;
    }
    Ok(())
}
