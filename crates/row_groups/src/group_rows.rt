//! A walk along the rows of a group.
ghost use Rattle.std.specs.Prelude.{◌≡◌, ℕ, ◌<◌, ◌≤◌, List, All, length};
ghost use Rattle.std.specs.Iterator.{YieldsFirst, item_count};
ghost use Rattle.cell_links.specs.Links.{rows_of};
ghost use Rattle.cell_links.specs.Walks.{rows_left};

use cell_links::{CellLinks, ListWalk};
use sgl_values::ROWS_MAX;
use std::marker::Model;

/// The rows of a group, by rising number. Contracts see those that are still to come.
#[derive(Debug, Drop)]
pub struct GroupRows<'a> {
    walk: ListWalk<'a>,
}

impl<'a> Model for GroupRows<'a> {
    ghost Value = { List ℕ };

    ghost view = { λ it. rows_left it.walk };
}

impl<'a> GroupRows<'a> {
    /// All rows of a group.
    pub fn of(links: &'a CellLinks, group: u32) -> GroupRows<'a>
        requires { group < length links.now.lists }
        ensures rows { result ≡ rows_of links.now group }
        ensures within { All (λ row. row < links.now.rows) result }
        ensures few { length result ≤ ROWS_MAX }
    {
        GroupRows {
            walk: ListWalk::new(links, group),
        }
    }
}

impl<'a> Iterator for GroupRows<'a> {
    type Item = u32;

    ghost next_gives = { YieldsFirst (λ (rest : List ℕ). rest) };

    ghost remaining = { item_count (λ (rest : List ℕ). rest) };

    fn next(&mut self) -> Option<u32> {
        self.walk.step()
    }
}
