//! An index that counts ranks at neighbouring places.

ghost use Rattle.std.specs.Prelude.{◌≡◌, ◌+◌, ◌-◌, ◌*◌, ◌<◌, ◌≤◌, length, slice_range, IfOk};
ghost use Rattle.std.specs.List.{range_with_len};
ghost use Rattle.std.specs.List.Sorted.{IsPermutation};
ghost use Rattle.range_aggregate.specs.Edges.{edge_place};
ghost use Rattle.range_aggregate.specs.Rows.{AreInverse, count_rows};

use crate::edge::{BREADTH, NEAR, nearest_edges, places_of};
use crate::ends::count_to_ends;
use crate::heights::ranks_of;
use crate::rank_grid::RankGrid;
use crate::rows::{Rows, scan};
use rank_table::Span;
use sgl_values::{Memory, ROWS_MAX};
use std::alloc::Global;
use std::marker::Model;

// At most so many neighbours are looked through as they are. That is one loop, and four with the grid, each of a length
// that a processor guesses wrong.
const LOOKED_THROUGH: usize = 1_024;

/// The rank of each place, the place of each rank, and a grid over both. Contracts see the ranks as a list.
#[derive(Debug, Drop)]
pub(crate) struct RankIndex {
    ranks: Vec<u16>,
    places: Vec<u16>,
    grid: RankGrid,
}

impl Model for RankIndex {
    ghost use Rattle.std.specs.Prelude.{ℕ, List};
    ghost use Rattle.range_aggregate.specs.Rows.{IsRankIndex};

    ghost Value = { List ℕ };

    ghost view = { λ it. it.ranks.items };

    ghost invariant = { λ it. IsRankIndex it.ranks.items it.places.items it.grid };
}

impl RankIndex {
    /// The index of the ranks of all places, which are at most 65,536 and are given by rising rank.
    pub(crate) fn build(alloc: Global, places: Vec<u16>) -> Result<RankIndex, Memory>
        requires few { length places.items ≤ ROWS_MAX }
        requires all { IsPermutation (range_with_len 0 (length places.items)) places.items }
        ensures { IfOk result (λ index. AreInverse index places.items) }
    {
        let ranks = ranks_of(alloc, places.as_slice())?;
        let grid = RankGrid::build(alloc, ranks.as_slice())?;
        Ok(RankIndex {
            ranks,
            places,
            grid,
        })
    }

    /// How many of the ranks in these columns are among the rows. Few columns are looked through, and so are few rows.
    pub(crate) fn count(&self, columns: Span, rows: Span) -> u32
        requires columns { columns.to ≤ length self.now }
        requires rows { rows.to ≤ length self.now }
        requires some { rows.from < rows.to }
        ensures { result ≡ count_rows rows.from (rows.to - 1) (slice_range self.now columns.from columns.to) }
    {
        if columns.from >= columns.to {
            0
        } else if columns.to - columns.from <= LOOKED_THROUGH {
            scan(&self.ranks[columns.from..columns.to], Rows::of(rows))
        } else if rows.to - rows.from <= LOOKED_THROUGH {
            scan(&self.places[rows.from..rows.to], Rows::of(columns))
        } else {
            self.count_wide(columns, rows)
        }
    }

    // The same of more columns and more rows: those between the edges nearest to their ends are counted by the grid.
    // First its rows are brought to their ends, and then its columns.
    fn count_wide(&self, columns: Span, rows: Span) -> u32
        requires columns { columns.to ≤ length self.now }
        requires rows { rows.to ≤ length self.now }
        requires wide { columns.from + BREADTH < columns.to }
        requires high { rows.from + BREADTH < rows.to }
        ensures { result ≡ count_rows rows.from (rows.to - 1) (slice_range self.now columns.from columns.to) }
    {
        let count = self.ranks.len();
        let across = nearest_edges(columns);
        let along = nearest_edges(rows);
        let counted = self.count_cells(across, along);
        let across = places_of(across, count);
        let along = places_of(along, count);
        let counted = count_to_ends(&self.places, along, rows, Rows::of(across), counted);
        count_to_ends(&self.ranks, across, columns, Rows::of(rows), counted)
    }

    // How many ranks from one edge of columns up to another lie from one edge of rows up to another.
    fn count_cells(&self, columns: Span, rows: Span) -> u32
        requires columns { columns.to * BREADTH ≤ length self.now + NEAR }
        requires rows { rows.to * BREADTH ≤ length self.now + NEAR }
        requires forward { columns.from ≤ columns.to }
        requires ordered { edge_place (length self.now) rows.from < edge_place (length self.now) rows.to }
        ensures { result ≡ count_rows (edge_place (length self.now) rows.from) (edge_place (length self.now) rows.to - 1) (slice_range self.now (edge_place (length self.now) columns.from) (edge_place (length self.now) columns.to)) }
    {
        let upper = self.grid.corner(columns.to, rows.to) - self.grid.corner(columns.from, rows.to);
        let lower = self.grid.corner(columns.to, rows.from)
            - self.grid.corner(columns.from, rows.from);
        upper - lower
    }
}
