//! A walk along the rows of a strip.
ghost use Rattle.std.specs.Prelude.{◌≡◌, ℕ, ◌<◌, ◌≤◌, ◌+◌, List, false, filter, length, position, slice_index};
ghost use Rattle.std.specs.Iterator.{YieldsFirst, item_count};
ghost use Rattle.row_groups.specs.Strips.{is_held as is_rank_held, rest_of, rows_held, IsStrip};

use sgl_values::ROWS_MAX;
use std::marker::Model;

/// So many ranks are looked at together.
const BLOCK: usize = 16;

/// The rows of a strip: of neighbours by one value, those whose rank by another lies between two. Contracts see the rows that
/// are still to come.
#[derive(Debug, Drop)]
pub struct Strip<'a> {
    rows: &'a [u32],
    ranks: &'a [u16],
    low: u16,
    last: u16,
}

impl<'a> Model for Strip<'a> {
    ghost Value = { List ℕ };

    ghost view = { rest_of };

    ghost invariant = { IsStrip };
}

impl<'a> Strip<'a> {
    /// Of these rows with their ranks, those with a rank from the low one to before the end.
    pub(crate) fn of(rows: &'a [u32], ranks: &'a [u16], low: u32, end: u32) -> Strip<'a>
        requires ranks { length ranks.now ≡ length rows.now }
        requires end { end ≤ ROWS_MAX }
        ensures { result ≡ rows_held low end rows.now ranks.now }
    {
        if low < end {
            Strip {
                rows,
                ranks,
                low: low as u16,
                last: (end - 1) as u16,
            }
        } else {
            Strip {
                rows: &[],
                ranks: &[],
                low: 0,
                last: 0,
            }
        }
    }
}

impl<'a> Iterator for Strip<'a> {
    type Item = u32;

    ghost next_gives = { YieldsFirst (λ (rest : List ℕ). rest) };

    ghost remaining = { item_count (λ (rest : List ℕ). rest) };

    fn next(&mut self) -> Option<u32> {
        match first_held(self.ranks, self.low, self.last) {
            Some(place) => {
                let row = self.rows[place];
                self.rows = &self.rows[place + 1..];
                self.ranks = &self.ranks[place + 1..];
                Some(row)
            }
            None => {
                self.rows = &[];
                self.ranks = &[];
                None
            }
        }
    }
}

// Where the first rank that is asked for stands.
fn first_held(ranks: &[u16], low: u16, last: u16) -> Option<usize>
    ensures { result ≡ position (is_rank_held low (last + 1)) ranks.now }
{
    for place in skip(ranks, low, last)..ranks.len() {
        if is_held(ranks[place], low, last) {
            return Some(place);
        }
    }
    None
}

// How many ranks the blocks hold, from the first on, in which none is asked for.
fn skip(ranks: &[u16], low: u16, last: u16) -> usize
    ensures within { result ≤ length ranks.now }
    ensures past { (k : ℕ) → k < result → is_rank_held low (last + 1) (slice_index ranks.now k) ≡ false }
{
    let mut place = 0;
    while ranks.len() - place >= BLOCK && count_held(&ranks[place..place + BLOCK], low, last) == 0 {
        place += BLOCK;
    }
    place
}

// How many of the ranks are asked for; without a branch, so that many are looked at in one step.
fn count_held(ranks: &[u16], low: u16, last: u16) -> u16
    requires { length ranks.now ≤ 16 }
    ensures { result ≡ length (filter (is_rank_held low (last + 1)) ranks.now) }
{
    let mut count = 0;
    for rank in ranks {
        count += u16::from(is_held(*rank, low, last));
    }
    count
}

fn is_held(rank: u16, low: u16, last: u16) -> bool
    ensures { result ≡ is_rank_held low (last + 1) rank }
{
    low <= rank && rank <= last
}
