//! A grid over ranks and their places.

ghost use Rattle.std.specs.Prelude.{◌≡◌, ◌+◌, ◌*◌, ◌/◌, ◌<◌, ◌≤◌, All, length, slice_index_or, sum, IfOk, OnOk};
ghost use Rattle.range_aggregate.specs.Rows.{CountsMore, GoesOnWithSums, IsRankGrid};

use crate::edge::{BREADTH, nearest_edge, place_of};
use sgl_values::{Memory, ROWS_MAX};
use std::alloc::Global;

/// A grid over ranks at their places, with edges both of columns, which are places, and of rows, which are ranks. Each
/// corner has the number of the ranks that stand before its column and are below its row.
#[derive(Debug, Drop)]
pub(crate) struct RankGrid {
    pub(crate) width: usize,
    pub(crate) counts: Vec<u32>,
}

impl RankGrid {
    /// The grid over these ranks, in as much time as there are ranks and corners. From column to column, the ranks that
    /// stand between the two are counted to their bands, each of which lies between two edges of rows.
    pub(crate) fn build(alloc: Global, ranks: &[u16]) -> Result<RankGrid, Memory>
        requires few { length ranks.now ≤ ROWS_MAX }
        requires within { All (λ rank. rank < length ranks.now) ranks.now }
        ensures { IfOk result (IsRankGrid ranks.now) }
    {
        let width = nearest_edge(ranks.len()) + 1;
        let mut bands = vec![in alloc; 0; width]?;
        let mut counts = Vec::with_capacity(alloc, width * width)?;
        let mut from = 0;
        for column in 0..width {
            let to = place_of(column, ranks.len());
            count_more(bands.as_mut_slice(), &ranks[from..to]);
            from = to;
            push_sums(&mut counts, bands.as_slice())?;
        }
        Ok(RankGrid { width, counts })
    }

    /// What the corner of these edges has.
    pub(crate) fn corner(&self, column: usize, row: usize) -> u32
        requires few { self.now.width ≤ ROWS_MAX / BREADTH + 1 }
        requires full { length self.now.counts.items ≡ self.now.width * self.now.width }
        requires column { column < self.now.width }
        requires row { row < self.now.width }
        ensures { result ≡ slice_index_or self.now.counts.items (column * self.now.width + row) 0 }
    {
        self.counts[column * self.width + row]
    }
}

// Counts more ranks to their bands. The ranks between two edges are a band.
fn count_more(bands: &mut [u32], ranks: &[u16])
    requires few { sum bands.old + length ranks.now ≤ ROWS_MAX }
    requires within { All (λ rank. rank < length bands.old * BREADTH) ranks.now }
    ensures { CountsMore ranks.now bands.old bands.new }
{
    for rank in ranks {
        bands[usize::from(*rank) / BREADTH] += 1;
    }
}

// Puts the next column of corners behind the others.
fn push_sums(counts: &mut Vec<u32>, bands: &[u32]) -> Result<(), Memory>
    requires { sum bands.now ≤ ROWS_MAX }
    ensures { OnOk result (GoesOnWithSums bands.now counts.old.items counts.new.items) }
{
    let mut sum = 0;
    for band in bands {
        counts.push(sum)?;
        sum += *band;
    }
    Ok(())
}
