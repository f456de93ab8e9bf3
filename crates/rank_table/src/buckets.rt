//! Buckets of equal width, and how many of some rising numbers are in those before each.

ghost use Rattle.std.specs.Prelude.{◌≡◌, ℤ, ◌+◌, ◌*◌, ◌/◌, ◌^◌, ◌<◌, ◌≤◌, List, length, IfOk};
ghost use Rattle.std.specs.List.{AllWithin};
ghost use Rattle.rank_table.specs.Ranks.{IsRising};
ghost use Rattle.rank_table.specs.Buckets.{AreAbove, AreBuckets, AreGreatest, AreStarts, IsNear, IsWhole, bucket_of};

use crate::span::Span;
use sgl_values::{Memory, ROWS_MAX};
use std::alloc::Global;

/// The buckets of rising numbers: the first begins at the least number, and each is 2^shift wide. It keeps for each
/// bucket, and for the one behind the last, how many of the numbers are in those before it.
#[derive(Debug, Drop)]
pub(crate) struct Buckets {
    pub(crate) least: i64,
    pub(crate) shift: u32,
    pub(crate) starts: Vec<u32>,
}

impl Buckets {
    /// The buckets of these numbers, two to four for a number, or fewer where that makes each one wide.
    pub(crate) fn of(alloc: Global, values: &[i64]) -> Result<Buckets, Memory>
        requires few { length values.now ≤ ROWS_MAX }
        requires rising { IsRising values.now }
        ensures { IfOk result (AreBuckets values.now) }
    {
        let least = least_of(values);
        let greatest = values.last().copied().unwrap_or(least);
        let spread = greatest.abs_diff(least);
        let shift = shift_for(spread, values.len());
        let buckets = if values.is_empty() {
            0
        } else {
            (spread >> shift) as usize + 1
        };
        let starts = starts_of(alloc, buckets, values, least, shift)?;
        Ok(Buckets {
            least,
            shift,
            starts,
        })
    }

    /// The part of the numbers that are in the bucket of this one. Those before it are less, those behind it greater;
    /// and where buckets are one number wide, those in it are equal to it.
    pub(crate) fn near(&self, number: i64) -> Span
        requires shift { self.now.shift < 64 }
        requires some { 0 < length self.now.starts.items }
        ensures near { (values : List ℤ) → AreBuckets values self.now → IsNear values number result }
        ensures whole { (values : List ℤ) → AreBuckets values self.now → self.now.shift ≡ 0 → IsWhole values number result }
    {
        if number < self.least {
            return Span { from: 0, to: 0 };
        }
        let last = self.starts.len() - 1;
        let bucket = number_of_bucket(self.least, self.shift, number) as usize;
        if bucket < last {
            Span {
                from: self.starts[bucket] as usize,
                to: self.starts[bucket + 1] as usize,
            }
        } else {
            let all = self.starts[last] as usize;
            Span { from: all, to: all }
        }
    }
}

// The first of rising numbers, or 0, where there is none.
fn least_of(values: &[i64]) -> i64
    requires { IsRising values.now }
    ensures { AreAbove result values.now }
{
    if values.is_empty() { 0 } else { values[0] }
}

// The bucket of a number, from 0 up.
fn number_of_bucket(least: i64, shift: u32, number: i64) -> u64
    requires { shift < 64 }
    ensures { result ≡ bucket_of least shift number }
{
    number.abs_diff(least) >> shift
}

// The least shift by which so many numbers, spread so far, get at most four buckets each.
fn shift_for(spread: u64, count: usize) -> u32
    requires { count ≤ ROWS_MAX }
    ensures width { result < 64 }
    ensures few { spread / 2 ^ result ≤ 4 * count + 1 }
{
    let most = 4 * count as u64;
    let mut shift = 0;
    while shift < 63 && spread >> shift > most {
        shift += 1;
    }
    shift
}

// The starts of so many buckets, and of the one behind them. Behind each bucket that has numbers is
// first put the place behind the last of these: the numbers rise, so it is the last one that is
// written there, and nothing is read. What stands behind a number is at least as much in each later
// bucket, so it is carried on to those that have no number.
fn starts_of(
    alloc: Global,
    buckets: usize,
    values: &[i64],
    least: i64,
    shift: u32,
) -> Result<Vec<u32>, Memory>
    requires few { length values.now ≤ ROWS_MAX }
    requires rising { IsRising values.now }
    requires above { AreAbove least values.now }
    requires shift { shift < 64 }
    requires room { buckets < 4294967296 }
    requires inside { AllWithin (λ z. bucket_of least shift z < buckets) values.now 0 (length values.now) }
    ensures { IfOk result (λ starts. AreStarts values.now least shift starts.items) }
{
    let mut ends = vec![in alloc; 0; buckets + 1]?;
    for (place, value) in values.iter().enumerate() {
        let bucket = number_of_bucket(least, shift, *value) as usize;
        ends[bucket + 1] = place as u32 + 1;
    }
    Ok(running_greatest(ends))
}

// In place of each number the greatest of those up to it.
fn running_greatest(mut numbers: Vec<u32>) -> Vec<u32>
    ensures { AreGreatest numbers.items result.items }
{
    let mut greatest = 0;
    for place in 0..numbers.len() {
        greatest = greatest.max(numbers[place]);
        numbers[place] = greatest;
    }
    numbers
}
