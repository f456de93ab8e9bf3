//! The list of each group as a circle of nodes in two arrays, and the group of each row.
ghost use Rattle.std.specs.Prelude.{◌≡◌, ℕ, ◌+◌, ◌<◌, ◌≤◌, nat_lt, if◌then◌else◌, length, replicate, slice_get, IfOk, IfSome};
ghost use Rattle.std.specs.List.{range_with_len};
ghost use Rattle.cell_links.specs.Links.{empty_links, with_row, without_row, rows_of, IsLinked, IsGroupOf};

use sgl_values::{Memory, ROWS_MAX};
use std::alloc::Global;

/// The lists as circles of nodes (Knuth, The Art of Computer Programming 1, 2.2.5). Row r is the node r, and group g is
/// the node rows + g, which stands before the first row of its list and behind the last. `next` and `previous` lead from
/// node to node, and `groups` tells the group of each row.
#[derive(Debug, Drop)]
pub(crate) struct Circles {
    pub(crate) rows: u32,
    pub(crate) next: Vec<u32>,
    pub(crate) previous: Vec<u32>,
    pub(crate) groups: Vec<Option<u32>>,
}

impl Circles {
    ghost use Rattle.cell_links.specs.Circles.{links_of, IsStored, Ties};

    /// Circles without rows.
    pub(crate) fn new(alloc: Global, rows: u32, groups: u32) -> Result<Circles, Memory>
        requires rows { rows ≤ ROWS_MAX }
        requires groups { groups ≤ ROWS_MAX }
        ensures stored { IfOk result IsStored }
        ensures empty { IfOk result (λ circles. links_of circles ≡ empty_links rows groups) }
    {
        let nodes = rows + groups;
        Ok(Circles {
            rows,
            next: alone(alloc, nodes)?,
            previous: alone(alloc, nodes)?,
            groups: ungrouped(alloc, rows)?,
        })
    }

    /// Puts a row behind the last of a group.
    pub(crate) fn link(&mut self, row: u32, group: u32)
        requires stored { IsStored self.old }
        requires row { row < self.old.rows }
        requires group { group < length (links_of self.old).lists }
        requires free { ¬ IsLinked (links_of self.old) row }
        ensures stored { IsStored self.new }
        ensures links { links_of self.new ≡ with_row (links_of self.old) row group }
    {
        let head = self.rows + group;
        let last = self.previous[head as usize];
        self.tie(last, row);
        self.tie(row, head);
        self.groups[row as usize] = Some(group);
    }

    /// Takes a row out of its list.
    pub(crate) fn unlink(&mut self, row: u32)
        requires stored { IsStored self.old }
        requires linked { IsLinked (links_of self.old) row }
        ensures stored { IsStored self.new }
        ensures links { links_of self.new ≡ without_row (links_of self.old) row }
    {
        let before = self.previous[row as usize];
        let after = self.next[row as usize];
        self.tie(before, after);
        self.groups[row as usize] = None;
    }

    /// The group of a row, where it is in a list.
    pub(crate) fn group_of(&self, row: u32) -> Option<u32>
        requires stored { IsStored self.now }
        requires row { row < self.now.rows }
        ensures group { IsGroupOf (links_of self.now) row result }
        ensures inside { IfSome result (λ group. group < length (links_of self.now).lists) }
    {
        self.groups[row as usize]
    }

    /// The first row of a group.
    pub(crate) fn first(&self, group: u32) -> Option<u32>
        requires stored { IsStored self.now }
        requires group { group < length (links_of self.now).lists }
        ensures value { result ≡ slice_get (rows_of (links_of self.now) group) 0 }
        ensures linked { IfSome result (IsLinked (links_of self.now)) }
        ensures inside { IfSome result (λ row. row < self.now.rows) }
    {
        let head = self.rows + group;
        row_of(self.next[head as usize], self.rows)
    }

    /// The row behind this one in its list.
    pub(crate) fn after(&self, row: u32) -> Option<u32>
        requires stored { IsStored self.now }
        requires linked { IsLinked (links_of self.now) row }
        ensures value { (group place : ℕ) → slice_get (rows_of (links_of self.now) group) place ≡ Some row
            → result ≡ slice_get (rows_of (links_of self.now) group) (place + 1) }
        ensures linked { IfSome result (IsLinked (links_of self.now)) }
        ensures inside { IfSome result (λ behind. behind < self.now.rows) }
    {
        row_of(self.next[row as usize], self.rows)
    }

    // Puts two nodes one behind the other.
    fn tie(&mut self, before: u32, after: u32)
        requires before { before < length self.old.next.items }
        requires after { after < length self.old.previous.items }
        ensures { Ties self.old self.new before after }
    {
        self.next[before as usize] = after;
        self.previous[after as usize] = before;
    }
}

// Nodes of which each is tied to itself.
fn alone(alloc: Global, nodes: u32) -> Result<Vec<u32>, Memory>
    ensures { IfOk result (λ tied. tied.items ≡ range_with_len 0 nodes) }
{
    Ok((0..nodes).collect(alloc)?)
}

// No row is in a group.
fn ungrouped(alloc: Global, rows: u32) -> Result<Vec<Option<u32>>, Memory>
    ensures { IfOk result (λ groups. groups.items ≡ replicate rows None) }
{
    Ok(vec![in alloc; None; rows as usize]?)
}

// The row of a node, where it is not that of a group.
fn row_of(node: u32, rows: u32) -> Option<u32>
    ensures value { result ≡ (if nat_lt node rows then Some node else None) }
    ensures inside { IfSome result (λ row. row < rows) }
{
    (node < rows).then_some(node)
}
