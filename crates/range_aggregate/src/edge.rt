//! Edges: places among ranks, and ranks, so many apart, from which counts are known.

ghost use Rattle.std.specs.Prelude.{◌≡◌, ◌≤◌};
ghost use Rattle.range_aggregate.specs.Edges.{IsNearest, edge_place};

use rank_table::Span;
use sgl_values::ROWS_MAX;

/// How far two edges lie apart.
pub(crate) const BREADTH: usize = 256;

/// A place lies no farther than that from the edge nearest to it.
pub(crate) const NEAR: usize = BREADTH / 2;

/// The number of the edge nearest to a place.
pub(crate) fn nearest_edge(place: usize) -> usize
    requires { place ≤ ROWS_MAX }
    ensures { IsNearest place result }
{
    (place + NEAR) / BREADTH
}

/// Where an edge lies, of so many places: at their end at most.
pub(crate) fn place_of(edge: usize, count: usize) -> usize
    requires { edge ≤ ROWS_MAX }
    ensures { result ≡ edge_place count edge }
{
    (edge * BREADTH).min(count)
}

/// The edges nearest to two ends.
pub(crate) fn nearest_edges(ends: Span) -> Span
    requires from { ends.from ≤ ROWS_MAX }
    requires to { ends.to ≤ ROWS_MAX }
    ensures from { IsNearest ends.from result.from }
    ensures to { IsNearest ends.to result.to }
{
    Span {
        from: nearest_edge(ends.from),
        to: nearest_edge(ends.to),
    }
}

/// Where two edges lie, of so many places.
pub(crate) fn places_of(edges: Span, count: usize) -> Span
    requires from { edges.from ≤ ROWS_MAX }
    requires to { edges.to ≤ ROWS_MAX }
    ensures from { result.from ≡ edge_place count edges.from }
    ensures to { result.to ≡ edge_place count edges.to }
{
    Span {
        from: place_of(edges.from, count),
        to: place_of(edges.to, count),
    }
}
