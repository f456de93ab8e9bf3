//! Counts between edges, which become counts between ends near them.

ghost use Rattle.std.specs.Prelude.{◌≡◌, ◌+◌, ◌-◌, ◌<◌, ◌≤◌, true, false, length, slice_range, if◌then◌else◌};
ghost use Rattle.range_aggregate.specs.Edges.{AreNear};
ghost use Rattle.range_aggregate.specs.Rows.{count_rows};

use crate::edge::{BREADTH, NEAR};
use crate::rows::{Rows, scan_first};
use rank_table::Span;
use sgl_values::ROWS_MAX;

/// How many ranks between two ends are among the rows, where so many of those between edges near them are. The ranks
/// between an end and its edge are looked through: they are added where the edge lies within the ends, and taken off
/// where it lies outside.
pub(crate) fn count_to_ends(ranks: &[u16], edges: Span, ends: Span, rows: Rows, counted: u32) -> u32
    requires few { length ranks.now ≤ ROWS_MAX }
    requires rows { rows.first ≤ rows.last }
    requires edges { edges.to ≤ length ranks.now }
    requires ends { ends.to ≤ length ranks.now }
    requires wide { ends.from + BREADTH < ends.to }
    requires near { AreNear edges ends }
    requires counted { counted ≡ count_rows rows.first rows.last (slice_range ranks.now edges.from edges.to) }
    ensures { result ≡ count_rows rows.first rows.last (slice_range ranks.now ends.from ends.to) }
{
    let before = scan_between(ranks, ends.from, edges.from, rows);
    let behind = scan_between(ranks, ends.to, edges.to, rows);
    let counted = moved(counted, behind, edges.to <= ends.to);
    moved(counted, before, ends.from <= edges.from)
}

// How many of the ranks between an end and an edge near it are among the rows, whichever of the two comes first.
fn scan_between(ranks: &[u16], end: usize, edge: usize, rows: Rows) -> u32
    requires end { end ≤ length ranks.now }
    requires edge { edge ≤ length ranks.now }
    requires from { end ≤ edge + NEAR }
    requires to { edge ≤ end + NEAR }
    requires ordered { rows.first ≤ rows.last }
    ensures from_end { end ≤ edge → result ≡ count_rows rows.first rows.last (slice_range ranks.now end edge) }
    ensures from_edge { edge ≤ end → result ≡ count_rows rows.first rows.last (slice_range ranks.now edge end) }
{
    let from = end.min(edge);
    let to = end.max(edge);
    let stop = (from + NEAR).min(ranks.len());
    scan_first(&ranks[from..stop], (to - from) as u16, rows)
}

// A count up to an edge becomes one up to an end, where so many lie between the two.
fn moved(counted: u32, between: u32, is_added: bool) -> u32
    requires added { is_added ≡ true → counted + between ≤ ROWS_MAX }
    requires taken { is_added ≡ false → between ≤ counted }
    ensures { result ≡ (if is_added then counted + between else counted - between) }
{
    if is_added {
        counted + between
    } else {
        counted - between
    }
}
