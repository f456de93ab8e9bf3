//! A walk along the strips of all groups but one.
ghost use Rattle.std.specs.Prelude.{◌≡◌, ◌<◌, ◌≤◌, ◌-◌, ◌++◌, ℕ, [], None};
ghost use Rattle.std.specs.Iterator.{YieldsFirst};
ghost use Rattle.group_boxes.specs.Points.{is_own as is_own_group};
ghost use Rattle.index_set.specs.Aims.{rows_of};
ghost use Rattle.index_set.specs.Others.{first_but as first_but_group, others_rest, rows_asked, rows_but};

use row_groups::{SortedGroups, Strip};
use test_boxes::AskedBox;

/// The rows that lie in a box, of one group after another, but for the group that is left out.
#[derive(Debug, Drop)]
pub(crate) struct Others<'a> {
    pub(crate) sorted: &'a SortedGroups,
    pub(crate) asked: AskedBox,
    pub(crate) own: Option<u32>,
    // The groups that are still to come.
    pub(crate) next: u32,
    pub(crate) end: u32,
    pub(crate) strip: Strip<'a>,
}

impl<'a> Others<'a> {
    /// Those of so many groups, behind which there are no rows.
    pub(crate) fn of(
        sorted: &'a SortedGroups,
        groups: u32,
        own: Option<u32>,
        asked: AskedBox,
    ) -> Others<'a>
        requires { (group : ℕ) → groups ≤ group → rows_asked sorted.now asked group ≡ [] }
        ensures { others_rest result ≡ rows_but own (rows_asked sorted.entry.now asked) 0 groups }
    {
        let first = first_but(own);
        Others {
            sorted,
            asked,
            own,
            next: first + 1,
            end: groups,
            strip: strip_in(sorted, asked, first),
        }
    }

    /// The next row.
    pub(crate) fn step(&mut self) -> Option<u32>
        ensures { YieldsFirst others_rest self.old result self.new }
    {
        let mut row = self.strip.next();
        'groups: while row.is_none() && self.next < self.end {
            row = self.turn();
        }
        row
    }

    // Goes on to the next group: its first row, where it is not left out and has one.
    fn turn(&mut self) -> Option<u32>
        requires more { self.old.next < self.old.end }
        requires spent { self.old.strip ≡ [] }
        ensures rest { rows_of result ++ others_rest self.new ≡ others_rest self.old }
        ensures spent { result ≡ None → self.new.strip ≡ [] }
        ensures fewer { self.new.end - self.new.next < self.old.end - self.old.next }
    {
        let group = self.next;
        self.next += 1;
        if is_own(self.own, group) {
            return None;
        }
        self.strip = strip_in(self.sorted, self.asked, group);
        self.strip.next()
    }
}

// The rows of a group that lie in a box.
fn strip_in<'a>(sorted: &'a SortedGroups, asked: AskedBox, group: u32) -> Strip<'a>
    ensures { result ≡ rows_asked sorted.entry.now asked group }
{
    let AskedBox { across, down } = asked;
    sorted.strip(group, across.low, across.high, down.low, down.high)
}

// The first group that is not left out.
fn first_but(own: Option<u32>) -> u32
    ensures value { result ≡ first_but_group own }
    ensures few { result ≤ 1 }
{
    if is_own(own, 0) { 1 } else { 0 }
}

fn is_own(own: Option<u32>, group: u32) -> bool
    ensures { result ≡ is_own_group own group }
{
    match own {
        None => false,
        Some(own) => own == group,
    }
}
