//! Where numbers that rise lie between two bounds, and blocks of neighbours.

ghost use Rattle.std.specs.Int.{div_ceil};
ghost use Rattle.std.specs.Prelude.{◌≡◌, ◌/◌, ◌<◌, ◌≤ℤ◌};
ghost use Rattle.rank_table.specs.Ranks.{IsRising};
ghost use Rattle.range_aggregate.specs.Spans.{IsSpan};

use rank_table::Span;

/// Of blocks of so many neighbours each, those that lie within a span.
pub(crate) fn whole_blocks(span: Span, size: usize) -> Span
    requires { 0 < size }
    ensures from { result.from ≡ div_ceil span.from size }
    ensures to { result.to ≡ span.to / size }
{
    Span {
        from: span.from.div_ceil(size),
        to: span.to / size,
    }
}

/// Where the numbers from the low one to the high one stand, among numbers that rise; found by halving.
pub(crate) fn span_of(numbers: &[i64], low: i64, high: i64) -> Span
    requires rising { IsRising numbers.now }
    requires ordered { low ≤ℤ high }
    ensures { IsSpan numbers.now low high result }
{
    Span {
        from: numbers.partition_point(|number| *number < low),
        to: numbers.partition_point(|number| *number <= high),
    }
}
