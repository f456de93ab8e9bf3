//! `CellLinks`: rows in groups, put behind the others of a group and taken out again.
ghost use Rattle.std.specs.Prelude.{◌≡◌, ℕ, ◌+◌, ◌<◌, ◌≤◌, length, slice_get, Contains, IfOk, IfSome, IfNone};

use crate::circles::Circles;
use sgl_values::{Memory, ROWS_MAX};
use std::alloc::Global;
use std::marker::Model;

/// Rows in groups: for each group the list of its rows, in the order in which they were put there. A row is in at most one
/// list. Rows and groups are numbered from 0, and there are at most 65,536 of each. Contracts see the number of rows and
/// the list of each group. Nothing but `new` takes memory, and each other call takes constant time.
#[derive(Debug, Drop)]
pub struct CellLinks {
    circles: Circles,
}

impl Model for CellLinks {
    ghost use Rattle.cell_links.specs.Links.{Links};

    ghost Value = { Links };

    ghost use Rattle.cell_links.specs.Circles.{links_of, IsStored};

    ghost view = { λ it. links_of it.circles };

    ghost invariant = { λ it. IsStored it.circles };
}

impl CellLinks {
    ghost use Rattle.cell_links.specs.Links.{empty_links, with_row, without_row, rows_of, IsLinked, IsLinks};

    /// Groups without rows, for at most 65,536 rows and 65,536 groups. `Memory` is its only refusal.
    pub fn new(alloc: Global, rows: u32, groups: u32) -> Result<CellLinks, Memory>
        requires rows { rows ≤ ROWS_MAX }
        requires groups { groups ≤ ROWS_MAX }
        ensures { IfOk result (λ links. links ≡ empty_links rows groups) }
    {
        Ok(CellLinks {
            circles: Circles::new(alloc, rows, groups)?,
        })
    }

    /// Puts a row that is in no list behind the others of a group.
    pub fn link(&mut self, row: u32, group: u32)
        requires row { row < self.old.rows }
        requires group { group < length self.old.lists }
        requires free { ¬ IsLinked self.old row }
        ensures { self.new ≡ with_row self.old row group }
    {
        self.circles.link(row, group);
    }

    /// Takes a row out of the list that it is in. The order of the others stays.
    pub fn unlink(&mut self, row: u32)
        requires { IsLinked self.old row }
        ensures taken { self.new ≡ without_row self.old row }
        ensures others { (group : ℕ) → ¬ Contains (rows_of self.old group) row
            → rows_of self.new group ≡ rows_of self.old group }
    {
        self.circles.unlink(row);
    }

    /// The group in whose list a row is; `None` exactly where it is in none.
    pub fn group_of(&self, row: u32) -> Option<u32>
        requires { row < self.now.rows }
        ensures in_group { IfSome result (λ group. Contains (rows_of self.now group) row) }
        ensures inside { IfSome result (λ group. group < length self.now.lists) }
        ensures in_none { IfNone result (¬ IsLinked self.now row) }
        ensures links { IsLinks self.now }
    {
        self.circles.group_of(row)
    }

    /// The first row of a group; `None` exactly where it has none.
    pub fn first(&self, group: u32) -> Option<u32>
        requires { group < length self.now.lists }
        ensures value { result ≡ slice_get (rows_of self.now group) 0 }
        ensures linked { IfSome result (IsLinked self.now) }
        ensures inside { IfSome result (λ row. row < self.now.rows) }
        ensures links { IsLinks self.now }
    {
        self.circles.first(group)
    }

    /// The row behind a row in the list that it is in; `None` exactly where it is the last.
    pub fn after(&self, row: u32) -> Option<u32>
        requires { IsLinked self.now row }
        ensures value { (group place : ℕ) → slice_get (rows_of self.now group) place ≡ Some row
            → result ≡ slice_get (rows_of self.now group) (place + 1) }
        ensures linked { IfSome result (IsLinked self.now) }
        ensures inside { IfSome result (λ behind. behind < self.now.rows) }
        ensures links { IsLinks self.now }
    {
        self.circles.after(row)
    }
}
