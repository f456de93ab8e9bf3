//! How rows are given to points, put into the lists of their cells, and given back.
ghost use Rattle.std.specs.Prelude.{◌≡◌, ◌≢◌, ℕ, ◌+◌, ◌<◌, ◌≤◌, ◌∷◌, ◌++◌, ◌⊎◌, [], AllPairs, Contains, length, vec_capacity, IfNone, IfOk, IfSome, option_to_list};
ghost use Rattle.std.specs.List.Sorted.{IsPermutation};
ghost use Rattle.cell_links.specs.Links.{IsLinked, rows_of};
ghost use Rattle.cell_keep.specs.Kept.{points_of, ArePlaced};
ghost use Rattle.cell_keep.specs.Rows.{rows_in};

use crate::grid::{cell_of, list_of};
use crate::held::Held;
use crate::point::KeepPoint;
use cell_links::CellLinks;
use sgl_values::{Memory, ROWS_MAX};
use std::alloc::Global;

/// Lists without rows, for so many rows.
pub(crate) fn no_links(alloc: Global, rows: u32, lists: u32) -> Result<CellLinks, Memory>
    requires rows { rows ≤ ROWS_MAX }
    requires lists { lists ≤ ROWS_MAX }
    ensures rows { IfOk result (λ links. links.rows ≡ rows) }
    ensures full { IfOk result (λ links. length links.lists ≡ lists) }
    ensures none { IfOk result (λ links. (row : ℕ) → ¬ IsLinked links row) }
{
    let links = CellLinks::new(alloc, rows, lists)?;
    Ok(links)
}

/// Gives rows back: each is taken out of its list, and is free.
pub(crate) fn give_back(links: &mut CellLinks, gone: &[u32], free: &mut Vec<u32>)
    requires rows { (row : ℕ) → Contains gone.now row → row < links.old.rows }
    requires room { length free.old.items + length gone.now ≤ vec_capacity free.old }
    ensures rows { links.new.rows ≡ links.old.rows }
    ensures full { length links.new.lists ≡ length links.old.lists }
    ensures out { (row : ℕ) → IsLinked links.new row → IsLinked links.old row × (¬ Contains gone.now row) }
    ensures free { free.new.items ≡ free.old.items ++ gone.now }
    ensures capacity { vec_capacity free.new ≡ vec_capacity free.old }
{
    for row in gone {
        take_out(links, *row);
        free.push_reserved(*row);
    }
}

/// Gives each new point the row that it takes over, or a free one.
pub(crate) fn fill(taken: &[Option<u32>], order: &mut Vec<u32>, free: &mut Vec<u32>)
    requires few { length taken.now ≤ ROWS_MAX }
    requires room { ROWS_MAX ≤ vec_capacity order.old }
    requires all { length (rows_in taken.now) + length free.old.items ≡ ROWS_MAX }
    ensures each { length order.new.items ≡ length taken.now }
    ensures shared { IsPermutation (rows_in taken.now ++ free.old.items) (order.new.items ++ free.new.items) }
    ensures holds { (row : ℕ) → Contains (rows_in taken.now) row → Contains order.new.items row }
    ensures room { ROWS_MAX ≤ vec_capacity order.new }
    ensures capacity { vec_capacity free.new ≡ vec_capacity free.old }
{
    order.clear();
    for row in taken {
        let row = row_for(*row, free);
        order.push_reserved(row);
    }
}

// The row that is taken over, or a free one.
fn row_for(taken: Option<u32>, free: &mut Vec<u32>) -> u32
    requires { IfNone taken (0 < length free.old.items) }
    ensures shared { IsPermutation (option_to_list taken ++ free.old.items) (result ∷ free.new.items) }
    ensures taken { IfSome taken (λ row. row ≡ result) }
    ensures capacity { vec_capacity free.new ≡ vec_capacity free.old }
{
    match taken {
        Some(row) => row,
        None => free.take_last(),
    }
}

/// Puts the new points into their rows, and each row into the list of its cell. A row whose list stays is left as it is.
pub(crate) fn put_all(held: &mut Held, new: &[KeepPoint])
    requires rows { held.old.links.rows ≡ ROWS_MAX }
    requires full { length held.old.links.lists ≡ ROWS_MAX }
    requires store { length held.old.points.items ≡ ROWS_MAX }
    requires few { length new.now ≤ ROWS_MAX }
    requires each { length held.old.order.items ≡ length new.now }
    requires inside { (row : ℕ) → Contains held.old.order.items row → row < ROWS_MAX }
    requires once { AllPairs (λ row other. row ≢ other) held.old.order.items }
    requires within { (row : ℕ) → IsLinked held.old.links row → Contains held.old.order.items row }
    requires room { ROWS_MAX ≤ vec_capacity held.old.keys }
    ensures order { held.new.order ≡ held.old.order }
    ensures points { points_of held.new ≡ new.now }
    ensures placed { ArePlaced held.new }
    ensures room { ROWS_MAX ≤ vec_capacity held.new.keys }
{
    held.keys.clear();
    for place in 0..new.len() {
        let point = &new[place];
        let row = held.order[place];
        put(&mut held.links, row, list_of(&cell_of(point)));
        held.points[row as usize] = *point;
        held.keys.push_reserved(point.key);
    }
}

// Puts a row into a list.
fn put(links: &mut CellLinks, row: u32, list: u32)
    requires row { row < links.old.rows }
    requires list { list < length links.old.lists }
    ensures rows { links.new.rows ≡ links.old.rows }
    ensures full { length links.new.lists ≡ length links.old.lists }
    ensures placed { Contains (rows_of links.new list) row }
    ensures others { (other group : ℕ) → other ≢ row → Contains (rows_of links.old group) other → Contains (rows_of links.new group) other }
    ensures within { (other : ℕ) → IsLinked links.new other → (other ≡ row) ⊎ IsLinked links.old other }
{
    let before = links.group_of(row);
    if before == Some(list) {
        return;
    }
    take_out(links, row);
    links.link(row, list);
}

// Takes a row out of the list that it is in, if it is in one.
fn take_out(links: &mut CellLinks, row: u32)
    requires { row < links.old.rows }
    ensures rows { links.new.rows ≡ links.old.rows }
    ensures full { length links.new.lists ≡ length links.old.lists }
    ensures out { ¬ IsLinked links.new row }
    ensures others { (other group : ℕ) → other ≢ row → Contains (rows_of links.old group) other → Contains (rows_of links.new group) other }
    ensures within { (other : ℕ) → IsLinked links.new other → IsLinked links.old other }
{
    if links.group_of(row).is_some() {
        links.unlink(row);
    }
}
