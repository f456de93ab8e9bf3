//! A sweep of each group, side by side, for the windows that rows ask for in it.
ghost use Rattle.std.specs.Prelude.{◌≡◌, ℕ, ◌<◌, ◌≤◌, [], All, length, map, slice_index_or, IfOk, OnOk};
ghost use Rattle.std.specs.List.{range_with_len};
ghost use Rattle.key_table.specs.Keys.{keys_of};
ghost use Rattle.extreme_sweep.specs.declared.window.Window.{Window as WindowOf};
ghost use Rattle.extreme_sweep.specs.Answers.{AreRanks};
ghost use Rattle.extreme_sweep.specs.Windows.{least_inside};
ghost use Rattle.row_groups.specs.Made.{AreMade};
ghost use Rattle.row_groups.specs.Places.{AreLinked};
ghost use Rattle.group_sweeps.specs.Asks.{groups_asked, window_at};
ghost use Rattle.group_sweeps.specs.declared.found.Found.{Found as FoundOf};
ghost use Rattle.group_sweeps.specs.Found.{IsFoundOf};
ghost use Rattle.group_sweeps.specs.Laid.{IsLaid};
ghost use Rattle.group_sweeps.specs.Finds.{AreFoundFor, FindsAll, IsGroupFound, KeepsOthers, PutsEach, point_by};

use crate::ask::{Ask, MOVES_A_THREAD, no_window};
use crate::found::{Found, found_of};
use crate::laying::lay_group;
use crate::sides::Sides;
use cell_links::CellLinks;
use env_table::World;
use extreme_sweep::{LaidPoints, Window, order_changes_no_least};
use key_table::KeyTable;
use row_groups::{GroupRows, Groups, Means, each_group};
use sgl_values::{Memory, ROWS_MAX};
use std::alloc::Global;
use std::thread::Threads;
use thread_share::{for_each_mut, threads_for};

/// The rows that ask for a group, and what was found for each of them, in their order.
#[derive(Debug, Drop)]
pub(crate) struct GroupFound {
    pub(crate) rows: Vec<u32>,
    pub(crate) found: Vec<Found>,
}

/// What groups are swept for: the world and the rows of its keys, the attributes by which rows are points, the groups of
/// points, those of the first groups laid out, and what each row asks for.
#[derive(Clone, Copy)]
pub(crate) struct Sweeping<'a> {
    pub(crate) world: &'a World,
    pub(crate) keys: &'a KeyTable,
    pub(crate) sides: Sides,
    pub(crate) groups: &'a Groups,
    pub(crate) laid: &'a [LaidPoints],
    pub(crate) asks: &'a [Ask],
}

/// What the window of each row holds of the only group there is: all rows ask for it, in their order.
pub(crate) fn sweep_sole<R: Threads + Sync>(
    means: &Means<R>,
    of: &Sweeping,
) -> Result<Vec<Found>, Memory>
    requires of { IsLaid of.now }
    requires sole { length of.now.groups.now.lists ≡ 1 }
    requires few { length of.now.asks.now ≤ ROWS_MAX }
    ensures size { IfOk result (λ found. length found.items ≡ length of.now.asks.now) }
    ensures each { IfOk result (λ found. FindsAll of.now.world.now.world (point_by of.now.sides of.now.world.now.world) of.now.groups.now.lists of.now.asks.now (length of.now.groups.now.lists) found.items) }
{
    let rows = first_rows(means.alloc, of.asks.len() as u32)?;
    let found = find_among(means, of, 0, rows.as_slice())?;
    Ok(found)
}

// The first rows, so many.
fn first_rows(alloc: Global, count: u32) -> Result<Vec<u32>, Memory>
    ensures { IfOk result (λ rows. rows.items ≡ range_with_len 0 count) }
{
    Ok((0..count).collect(alloc)?)
}

/// Finds, for each row, what its window holds of the points of the group that it asks for; the rows that ask for each group
/// are linked. Threads share the groups and, where these are fewer, the sweep of each.
pub(crate) fn sweep_groups<R: Threads + Sync>(
    means: &Means<R>,
    of: &Sweeping,
    links: &CellLinks,
    found: &mut [Found],
) -> Result<(), Memory>
    requires of { IsLaid of.now }
    requires links { AreLinked links.now (groups_asked of.now.asks.now) (length of.now.asks.now) (length of.now.groups.now.lists) }
    requires found { length found.old ≡ length of.now.asks.now }
    ensures { OnOk result (FindsAll of.now.world.now.world (point_by of.now.sides of.now.world.now.world) of.now.groups.now.lists of.now.asks.now (length of.now.groups.now.lists) found.new) }
{
    let all = find_groups(means, of, links)?;
    for one in &all {
        put_found(one.rows.as_slice(), one.found.as_slice(), found);
    }
    Ok(())
}

// What is found for the rows that ask for each group.
fn find_groups<R: Threads + Sync>(
    means: &Means<R>,
    of: &Sweeping,
    links: &CellLinks,
) -> Result<Vec<GroupFound>, Memory>
    requires of { IsLaid of.now }
    requires links { AreLinked links.now (groups_asked of.now.asks.now) (length of.now.asks.now) (length of.now.groups.now.lists) }
    ensures { IfOk result (λ all. AreMade (IsGroupFound of.now.world.now.world (point_by of.now.sides of.now.world.now.world) of.now.groups.now.lists of.now.asks.now) (length of.now.groups.now.lists) all.items) }
{
    let count = of.groups.len();
    let within = means.within(count);
    each_group(
        means,
        count,
        |group: u32| -> Result<GroupFound, Memory>
            requires of { IsLaid of.now }
            requires links { AreLinked links.now (groups_asked of.now.asks.now) (length of.now.asks.now) (length of.now.groups.now.lists) }
            requires group { group < length of.now.groups.now.lists }
            ensures { IfOk result (λ one. IsGroupFound of.entry.now.world.now.world (point_by of.entry.now.sides of.entry.now.world.now.world) of.entry.now.groups.now.lists of.entry.now.asks.now group one) }
        {
            let rows = rows_of(within.alloc, GroupRows::of(links, group))?;
            let found = find_among(&within, of, group, rows.as_slice())?;
            Ok(GroupFound { rows, found })
        },
    )
}

// The rows of a walk.
fn rows_of(alloc: Global, walk: GroupRows<'_>) -> Result<Vec<u32>, Memory>
    ensures { IfOk result (λ rows. rows.items ≡ walk.entry) }
{
    let mut rows = Vec::new(alloc);
    for row in walk {
        rows.push(row)?;
    }
    Ok(rows)
}

// What the windows of these rows hold of the points of a group, which are laid out here where they are not yet.
fn find_among<R: Threads + Sync>(
    means: &Means<R>,
    of: &Sweeping,
    group: u32,
    rows: &[u32],
) -> Result<Vec<Found>, Memory>
    requires of { IsLaid of.now }
    requires group { group < length of.now.groups.now.lists }
    requires few { length rows.now ≤ ROWS_MAX }
    requires asks { All (λ row. row < length of.now.asks.now) rows.now }
    ensures { IfOk result (λ found. AreFoundFor of.now.world.now.world (map (point_by of.now.sides of.now.world.now.world) (slice_index_or of.now.groups.now.lists group [])) of.now.asks.now rows.now (length rows.now) found.items) }
{
    order_changes_no_least();
    match of.laid.get(group as usize) {
        Some(laid) => find_rows(means, of, laid, rows),
        None => {
            let laid = lay_group(means, of.world, of.sides, of.groups, group)?;
            find_rows(means, of, &laid, rows)
        }
    }
}

// What the windows of these rows hold of points that are laid out.
fn find_rows<R: Threads + Sync>(
    means: &Means<R>,
    of: &Sweeping,
    laid: &LaidPoints,
    rows: &[u32],
) -> Result<Vec<Found>, Memory>
    requires keys { of.now.keys.now ≡ keys_of of.now.world.now.world }
    requires few { length rows.now ≤ ROWS_MAX }
    requires asks { All (λ row. row < length of.now.asks.now) rows.now }
    ensures { IfOk result (λ found. AreFoundFor of.now.world.now.world laid.now of.now.asks.now rows.now (length rows.now) found.items) }
{
    let Means { rt, threads, alloc } = *means;
    let copied = windows_of(means, of.asks, rows)?;
    let windows = copied.as_slice();
    let ranks = laid.ranks(rt, threads, alloc, windows)?;
    let mut found = vec![in alloc; Found::Nothing; rows.len()]?;
    let ranked = Ranked {
        laid,
        windows,
        ranks: ranks.as_slice(),
    };
    find_beside(means, of.world, of.keys, ranked, found.as_mut_slice());
    Ok(found)
}

// Windows of points that are laid out, and the rank by which each is answered.
#[derive(Clone, Copy)]
struct Ranked<'a> {
    laid: &'a LaidPoints,
    windows: &'a [Window],
    ranks: &'a [u32],
}

// Puts what was found for each window in its place, by threads.
fn find_beside<R: Threads + Sync>(
    means: &Means<R>,
    world: &World,
    keys: &KeyTable,
    of: Ranked,
    found: &mut [Found],
)
    requires keys { keys.now ≡ keys_of world.now.world }
    requires ranks { AreRanks of.laid.now of.windows.now of.ranks.now }
    requires found { length found.old ≡ length of.windows.now }
    ensures long { length found.new ≡ length found.old }
    ensures each { (i : ℕ) (d : WindowOf) (e : FoundOf) → i < length found.old → IsFoundOf world.now.world (least_inside of.entry.laid.now (slice_index_or of.entry.windows.now i d)) (slice_index_or found.new i e) }
{
    let threads = threads_for(means.threads, found.len(), MOVES_A_THREAD);
    for_each_mut(
        means.rt,
        found,
        threads,
        &|i, one: &mut Found|
            requires keys { keys.now ≡ keys_of world.now.world }
            requires ranks { AreRanks of.laid.now of.windows.now of.ranks.now }
            requires i { i < length of.windows.now }
        {
            put_answer(world, keys, of, i, one);
        },
    );
}

// Puts what was found for one window in its place.
fn put_answer(world: &World, keys: &KeyTable, of: Ranked, i: usize, one: &mut Found)
    requires keys { keys.now ≡ keys_of world.now.world }
    requires ranks { AreRanks of.laid.now of.windows.now of.ranks.now }
    requires i { i < length of.windows.now }
    ensures { (d : WindowOf) → IsFoundOf world.now.world (least_inside of.entry.laid.now (slice_index_or of.entry.windows.now i d)) one.new }
{
    *one = found_of(world, keys, of.laid.answer(&of.windows[i], of.ranks[i]));
}

// The windows that these rows ask for, copied by threads.
fn windows_of<R: Threads + Sync>(
    means: &Means<R>,
    asks: &[Ask],
    rows: &[u32],
) -> Result<Vec<Window>, Memory>
    requires { All (λ row. row < length asks.now) rows.now }
    ensures { IfOk result (λ windows. windows.items ≡ map (window_at asks.now) rows.now) }
{
    let mut windows = vec![in means.alloc; no_window(); rows.len()]?;
    copy_beside(means, asks, rows, windows.as_mut_slice());
    Ok(windows)
}

// Copies them to their places.
fn copy_beside<R: Threads + Sync>(
    means: &Means<R>,
    asks: &[Ask],
    rows: &[u32],
    windows: &mut [Window],
)
    requires rows { All (λ row. row < length asks.now) rows.now }
    requires windows { length windows.old ≡ length rows.now }
    ensures long { length windows.new ≡ length windows.old }
    ensures each { (i : ℕ) (d : WindowOf) → i < length windows.old → slice_index_or windows.new i d ≡ window_at asks.now (slice_index_or rows.now i 0) }
{
    let threads = threads_for(means.threads, rows.len(), MOVES_A_THREAD);
    for_each_mut(
        means.rt,
        windows,
        threads,
        &|i, window: &mut Window|
            requires rows { All (λ row. row < length asks.now) rows.now }
            requires i { i < length rows.now }
        {
            put_window(asks, rows, i, window);
        },
    );
}

// Copies one of them to its place.
fn put_window(asks: &[Ask], rows: &[u32], i: usize, window: &mut Window)
    requires rows { All (λ row. row < length asks.now) rows.now }
    requires i { i < length rows.now }
    ensures { window.new ≡ window_at asks.now (slice_index_or rows.now i 0) }
{
    *window = asks[rows[i] as usize].window;
}

// Puts what was found for these rows, one by one, in their places.
fn put_found(rows: &[u32], own: &[Found], found: &mut [Found])
    requires own { length own.now ≡ length rows.now }
    requires found { All (λ row. row < length found.old) rows.now }
    ensures size { length found.new ≡ length found.old }
    ensures each { PutsEach rows.now own.now (length rows.now) found.new }
    ensures others { KeepsOthers rows.now found.old found.new }
{
    for i in 0..rows.len() {
        found[rows[i] as usize] = own[i];
    }
}
