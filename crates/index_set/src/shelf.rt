//! Partitions of the rows of a world and range indices over them, shared by the uses that ask for the same.
ghost use Rattle.std.specs.Prelude.{◌≡◌, ◌≤◌, true, length, IfOk, IfSome, OnOk};
ghost use Rattle.std.specs.Option.{option_map};
ghost use Rattle.sgl_values.specs.World.{Row};
ghost use Rattle.sgl_typed.specs.declared.script.Attr.{Attr};
ghost use Rattle.std.specs.Prelude.{List};
ghost use Rattle.index_set.specs.Shelves.{Grows, HasGroups, IsPart, IsShelf, Matches, pair_of, part_in};

use crate::part::Part;
use env_table::World;
use group_boxes::{Axes, Boxes, GroupBoxes};
use group_sweeps::Means;
use row_groups::Groups;
use sgl_typed::Attr;
use sgl_values::{List, Memory};
use std::alloc::Global;
use std::thread::Threads;

// So many groups are gone through one by one, rather than all rows without those of one of them.
const FEW_GROUPS: u32 = 4;

/// The partitions and range indices of one world. Each stands here once.
#[derive(Debug, Drop)]
pub(crate) struct Shelf {
    pub(crate) partitions: List<Groups>,
    pub(crate) parts: List<Part>,
}

impl Shelf {
    /// An empty shelf.
    pub(crate) fn new(alloc: Global) -> Shelf
        ensures { (rows : List Row) → IsShelf result rows }
    {
        Shelf {
            partitions: List::new(alloc),
            parts: List::new(alloc),
        }
    }

    /// The range indices with this number, and the partition that they are over.
    pub(crate) fn part(&self, number: usize) -> Option<GroupBoxes<'_>>
        ensures { option_map pair_of result ≡ part_in self.now number }
    {
        match self.parts.get(number) {
            None => None,
            Some(part) => over(self.partitions.get(part.groups), &part.boxes),
        }
    }

    /// The number of range indices by these attributes and along these axes, which are built where there are none.
    pub(crate) fn part_for<R: Threads + Sync>(
        &mut self,
        means: &Means<R>,
        world: &World,
        attrs: &[Attr],
        axes: Axes,
    ) -> Result<usize, Memory>
        requires few { length attrs.now ≤ 4 }
        requires shelf { IsShelf self.old world.now.world.rows }
        ensures part { IfOk result (λ number. IsPart self.new number attrs.now axes world.now.world.rows) }
        ensures shelf { OnOk result (IsShelf self.new world.now.world.rows) }
        ensures grows { OnOk result (Grows self.old self.new) }
    {
        if let Some(number) = self.find_part(attrs, axes) {
            return Ok(number);
        }
        let groups = self.groups_for(means, world, attrs)?;
        self.add_part(means, world, attrs, groups, axes)
    }

    // The number of range indices by these attributes and along these axes.
    fn find_part(&self, attrs: &[Attr], axes: Axes) -> Option<usize>
        ensures { IfSome result (λ number. Matches self.now number attrs.now axes) }
    {
        for number in 0..self.parts.len() {
            if self.is_part(number, attrs, axes) {
                return Some(number);
            }
        }
        None
    }

    fn is_part(&self, number: usize, attrs: &[Attr], axes: Axes) -> bool
        ensures { result ≡ true → Matches self.now number attrs.now axes }
    {
        match self.part(number) {
            None => false,
            Some(part) => part.groups.is_by(attrs) && part.boxes.is_along(axes),
        }
    }

    /// The number of the partition by these attributes, which is made where there is none.
    pub(crate) fn groups_for<R: Threads + Sync>(
        &mut self,
        means: &Means<R>,
        world: &World,
        attrs: &[Attr],
    ) -> Result<usize, Memory>
        requires few { length attrs.now ≤ 4 }
        requires shelf { IsShelf self.old world.now.world.rows }
        ensures groups { IfOk result (λ number. HasGroups self.new number attrs.now) }
        ensures shelf { OnOk result (IsShelf self.new world.now.world.rows) }
        ensures grows { OnOk result (Grows self.old self.new) }
    {
        if let Some(number) = self.find_groups(attrs) {
            return Ok(number);
        }
        let number = self.partitions.len();
        let groups = Groups::build(means.rt, means.threads, means.alloc, world, attrs)?;
        self.partitions.push(groups)?;
        Ok(number)
    }

    /// The number of the partition by these attributes.
    pub(crate) fn find_groups(&self, attrs: &[Attr]) -> Option<usize>
        ensures { IfSome result (λ number. HasGroups self.now number attrs.now) }
    {
        for number in 0..self.partitions.len() {
            if self.is_by(number, attrs) {
                return Some(number);
            }
        }
        None
    }

    /// Whether the partition with this number has few groups.
    pub(crate) fn has_few(&self, number: usize) -> bool {
        match self.partitions.get(number) {
            None => false,
            Some(groups) => are_few(groups),
        }
    }

    fn is_by(&self, number: usize, attrs: &[Attr]) -> bool
        ensures { result ≡ true → HasGroups self.now number attrs.now }
    {
        match self.partitions.get(number) {
            None => false,
            Some(groups) => groups.is_by(attrs),
        }
    }

    // Puts range indices along these axes over the partition with this number, which is by these attributes.
    fn add_part<R: Threads + Sync>(
        &mut self,
        means: &Means<R>,
        world: &World,
        attrs: &[Attr],
        groups: usize,
        axes: Axes,
    ) -> Result<usize, Memory>
        requires groups { HasGroups self.old groups attrs.now }
        requires shelf { IsShelf self.old world.now.world.rows }
        ensures part { IfOk result (λ number. IsPart self.new number attrs.now axes world.now.world.rows) }
        ensures shelf { OnOk result (IsShelf self.new world.now.world.rows) }
        ensures grows { OnOk result (Grows self.old self.new) }
    {
        let _ = attrs;
        let number = self.parts.len();
        let boxes = Boxes::build(
            means.rt,
            means.threads,
            means.alloc,
            world,
            &self.partitions.as_slice()[groups],
            axes,
        )?;
        self.parts.push(Part { groups, boxes })?;
        Ok(number)
    }
}

/// Whether groups are few enough to be gone through one by one.
pub(crate) fn are_few(groups: &Groups) -> bool {
    groups.len() <= FEW_GROUPS
}

// Range indices over a partition that may be missing.
fn over<'a>(groups: Option<&'a Groups>, boxes: &'a Boxes) -> Option<GroupBoxes<'a>>
    ensures { option_map pair_of result ≡ option_map (λ groups. (groups.now, boxes.entry.now)) groups.entry }
{
    match groups {
        None => None,
        Some(groups) => Some(GroupBoxes { groups, boxes }),
    }
}
