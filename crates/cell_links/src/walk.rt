//! Walks along the rows of a list.
ghost use Rattle.std.specs.Prelude.{◌≡◌, ◌<◌, length, slice_get};
ghost use Rattle.std.specs.Iterator.{YieldsFirst};
ghost use Rattle.cell_links.specs.Links.{IsLinks, rows_of};

use crate::links::CellLinks;

/// A walk along the rows of a list, of which so many are passed.
#[derive(Debug, Drop)]
pub struct ListWalk<'a> {
    links: &'a CellLinks,
    list: u32,
    passed: u32,
    next: Option<u32>,
    ghost at: { next ≡ slice_get (rows_of links.now list) passed },
}

impl<'a> ListWalk<'a> {
    ghost use Rattle.cell_links.specs.Walks.{rows_left};

    /// The walk along all rows of a list.
    pub fn new(links: &'a CellLinks, list: u32) -> ListWalk<'a>
        requires { list < length links.now.lists }
        ensures rows { rows_left result ≡ rows_of links.now list }
        ensures links { IsLinks links.now }
    {
        ListWalk {
            links,
            list,
            passed: 0,
            next: links.first(list),
        }
    }

    /// The next row.
    pub fn step(&mut self) -> Option<u32>
        ensures { YieldsFirst rows_left self.old result self.new }
    {
        let row = self.next?;
        self.next = self.links.after(row);
        self.passed += 1;
        Some(row)
    }
}
