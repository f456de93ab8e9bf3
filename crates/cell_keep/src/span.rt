//! Cells one beside the other, and squares of cells.
ghost use Rattle.std.specs.Prelude.{◌≡◌, ◌≤ℤ◌, ◌<ℤ◌, ◌+ℤ◌, negsuc, pos, IfSome};
ghost use Rattle.cell_keep.specs.Grid.{quotient as quotient_of};
ghost use Rattle.cell_keep.specs.Covers.{IsSpan};

use crate::grid::quotient;
use sgl_values::Num;

/// So many cells one beside the other, from the first quotient on.
#[derive(Clone, Copy)]
pub(crate) struct Span {
    pub(crate) first: i64,
    pub(crate) count: u32,
}

impl Span {
    /// The quotients of the numbers at most so far from a centre.
    pub(crate) fn around(centre: Num, radius: Num) -> Option<Span>
        ensures { IfSome result (IsSpan centre radius) }
    {
        let first = near_quotient(centre.get() - radius.get());
        let last = near_quotient(centre.get() + radius.get());
        let count = count_between(first, last)?;
        Some(Span { first, count })
    }
}

/// The cells across and up.
#[derive(Clone, Copy)]
pub(crate) struct Square {
    pub(crate) across: Span,
    pub(crate) up: Span,
}

// A quotient is no farther from 0 than its number, but for the rounding.
fn near_quotient(number: i64) -> i64
    requires low { negsuc 2000000000000 ≤ℤ number }
    requires high { number ≤ℤ pos 2000000000000 }
    ensures value { result ≡ quotient_of number }
    ensures low { negsuc 2000000000000 ≤ℤ result }
    ensures high { result ≤ℤ pos 2000000000000 }
{
    quotient(number)
}

// So many whole numbers from the first on reach the last.
fn count_between(first: i64, last: i64) -> Option<u32>
    requires first { (negsuc 2000000000000 ≤ℤ first) × (first ≤ℤ pos 2000000000000) }
    requires last { (negsuc 2000000000000 ≤ℤ last) × (last ≤ℤ pos 2000000000000) }
    ensures { IfSome result (λ count. last <ℤ (first +ℤ pos count)) }
{
    if last < first {
        return Some(0);
    }
    u32::try_from(last - first + 1).ok()
}
