//! The rows of a world in groups by the values of a few attributes.
ghost use Rattle.std.specs.Prelude.{◌≡◌, ◌<◌, ◌≤◌, ◌↔◌, All, length, IfOk, IfSome, IsTrue};
ghost use Rattle.row_groups.specs.Groups.{number_of, rows_in, IsGroups};
ghost use Rattle.row_groups.specs.Places.{AreApart};

use crate::group_rows::GroupRows;
use crate::means::Means;
use crate::numbering::{Numbered, link_groups, number_rows};
use cell_links::CellLinks;
use env_table::World;
use sgl_typed::Attr;
use sgl_values::{List, Memory, Num, ROWS_MAX};
use std::alloc::Global;
use std::collections::BTreeMap;
use std::marker::Model;
use std::thread::Threads;

/// The rows of a world in groups: those of which up to four attributes have the same values. A key is these values, with 0
/// in the place of each that is missing up to the fourth. Groups and rows are numbered from 0, and there are at most 65,536
/// of each. Contracts see the attributes, the number of each key, and the rows of each group.
#[derive(Debug, Drop)]
pub struct Groups {
    attrs: List<Attr>,
    rows: u32,
    numbers: BTreeMap<[Num; 4], u32>,
    links: CellLinks,
}

impl Model for Groups {
    ghost use Rattle.row_groups.specs.Groups.{Grouping};

    ghost Value = { Grouping };

    ghost use Rattle.row_groups.specs.Stored.{grouping_of, IsStored};

    ghost view = { grouping_of };

    ghost invariant = { IsStored };
}

impl Groups {
    /// The rows of a world by the values of at most four attributes. It takes n log n time for n rows. At most so many
    /// threads share the work; one where it is 0. `Memory` is its only refusal.
    pub fn build(
        rt: &(impl Threads + Sync),
        threads: usize,
        alloc: Global,
        world: &World,
        attrs: &[Attr],
    ) -> Result<Groups, Memory>
        requires { length attrs.now ≤ 4 }
        ensures { IfOk result (λ groups. IsGroups groups attrs.now world.now.world.rows) }
    {
        let rows = world.len();
        let means = Means { rt, threads, alloc };
        let Numbered { numbers, groups } = number_rows(&means, world, attrs)?;
        let links = link_groups(alloc, groups.as_slice(), numbers.len() as u32)?;
        let attrs = List::from_vec(Vec::from_slice(alloc, attrs)?);
        Ok(Groups {
            attrs,
            rows,
            numbers,
            links,
        })
    }

    /// Whether the rows are in groups by these attributes, in this order.
    pub fn is_by(&self, attrs: &[Attr]) -> bool
        ensures { IsTrue result ↔ (self.now.attrs ≡ attrs.now) }
    {
        self.attrs.as_slice() == attrs
    }

    /// The number of groups, at most 65,536.
    pub fn len(&self) -> u32
        ensures value { result ≡ length self.now.lists }
        ensures few { result ≤ ROWS_MAX }
    {
        self.numbers.len() as u32
    }

    /// The number of the group with a key; `None` where no row has it.
    pub fn number(&self, key: &[Num; 4]) -> Option<u32>
        ensures value { result ≡ number_of self.now key.now }
        ensures inside { IfSome result (λ group. group < length self.now.lists) }
    {
        self.numbers.get(key).copied()
    }

    /// The rows of a group, by rising number.
    pub fn rows(&self, group: u32) -> GroupRows<'_>
        requires { group < length self.now.lists }
        ensures rows { result ≡ rows_in self.now group }
        ensures within { All (λ row. row < self.now.rows) result }
        ensures few { length result ≤ ROWS_MAX }
    {
        GroupRows::of(&self.links, group)
    }
    /// A law, and no work: each row is in at most one group, and there once.
    pub(crate) fn are_apart(&self, group: u32)
        requires { group < length self.now.lists }
        ensures { AreApart self.now.lists }
    {
        let _ = self.links.first(group);
    }
}
