//! Ranks, and how many of a few lie in a span of them.

ghost use Rattle.std.specs.Prelude.{◌≡◌, ◌+◌, ◌-◌, ◌<◌, ◌≤◌, ◌&&◌, length, take, if◌then◌else◌};
ghost use Rattle.range_aggregate.specs.Rows.{count_rows, is_in_rows};

use rank_table::Span;
use sgl_values::ROWS_MAX;

/// The ranks from the first to the last, both included.
#[derive(Clone, Copy)]
pub(crate) struct Rows {
    pub(crate) first: u16,
    pub(crate) last: u16,
}

impl Rows {
    /// The ranks of a span.
    pub(crate) fn of(span: Span) -> Rows
        requires some { span.from < span.to }
        requires few { span.to ≤ ROWS_MAX }
        ensures first { result.first ≡ span.from }
        ensures last { result.last ≡ span.to - 1 }
    {
        Rows {
            first: span.from as u16,
            last: (span.to - 1) as u16,
        }
    }
}

/// How many of these ranks, in any order, are among the rows. All are looked at, in a loop that compilers turn into
/// vector code.
pub(crate) fn scan(ranks: &[u16], rows: Rows) -> u32
    requires few { length ranks.now < ROWS_MAX }
    requires ordered { rows.first ≤ rows.last }
    ensures { result ≡ count_rows rows.first rows.last ranks.now }
{
    let breadth = rows.last - rows.first;
    let mut count: u16 = 0;
    for rank in ranks {
        count += u16::from(is_within(*rank, rows.first, breadth));
    }
    u32::from(count)
}

/// How many of the first of these ranks are among the rows. All ranks are looked at, so that the loop has the same
/// length for any number of first ones, which a processor guesses right.
pub(crate) fn scan_first(ranks: &[u16], some: u16, rows: Rows) -> u32
    requires few { length ranks.now < ROWS_MAX }
    requires within { some ≤ length ranks.now }
    requires ordered { rows.first ≤ rows.last }
    ensures { result ≡ count_rows rows.first rows.last (take some ranks.now) }
{
    let breadth = rows.last - rows.first;
    let mut count: u16 = 0;
    for number in 0..ranks.len() {
        let is_found = is_within(ranks[number], rows.first, breadth);
        count += both((number as u16) < some, is_found);
    }
    u32::from(count)
}

// One where both hold, and else none: a product, since compilers make a jump of a condition here.
fn both(one: bool, other: bool) -> u16
    ensures { result ≡ (if one && other then 1 else 0) }
{
    u16::from(one) * u16::from(other)
}

// The rank is the first or at most so far behind it: below the first, the difference wraps to a number above.
fn is_within(rank: u16, first: u16, breadth: u16) -> bool
    requires { first + breadth < ROWS_MAX }
    ensures { result ≡ is_in_rows first (first + breadth) rank }
{
    rank.wrapping_sub(first) <= breadth
}
