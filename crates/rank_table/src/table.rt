//! The table of ranks.

ghost use Rattle.std.specs.Prelude.{◌≡◌, ◌≤◌, length, IfOk};
ghost use Rattle.rank_table.specs.Ranks.{IsRising, count_below, count_through};

use crate::buckets::Buckets;
use sgl_values::{Memory, ROWS_MAX};
use std::alloc::Global;
use std::marker::Model;

/// Numbers in rising order, any number of which may be equal, with a table that finds the rank of a number. Contracts
/// see the numbers as a list.
#[derive(Debug, Drop)]
pub struct RankTable {
    values: Vec<i64>,
    buckets: Buckets,
}

impl Model for RankTable {
    ghost use Rattle.std.specs.Prelude.{ℤ, List};
    ghost use Rattle.rank_table.specs.Buckets.{IsTable};

    ghost Value = { List ℤ };

    ghost view = { λ it. it.values.items };

    ghost invariant = { λ it. IsTable it.values.items it.buckets };
}

impl RankTable {
    /// The table over at most 65,536 numbers, which rise. It takes time and memory for a few buckets a number. `Memory`
    /// is its only refusal.
    pub fn build(alloc: Global, values: Vec<i64>) -> Result<RankTable, Memory>
        requires few { length values.items ≤ ROWS_MAX }
        requires rising { IsRising values.items }
        ensures { IfOk result (λ table. table ≡ values.items) }
    {
        let buckets = Buckets::of(alloc, values.as_slice())?;
        Ok(RankTable { values, buckets })
    }

    /// How many of the numbers are less than this one, which may be any. It looks at one bucket alone, and at no number
    /// where buckets are one number wide. It takes no memory.
    pub fn below(&self, number: i64) -> u32
        ensures { result ≡ count_below number self.now }
    {
        let near = self.buckets.near(number);
        if self.buckets.shift == 0 {
            return near.from as u32;
        }
        let part = &self.values[near.from..near.to];
        (near.from + part.partition_point(|value| *value < number)) as u32
    }

    /// How many of the numbers are this one, which may be any, or less. It looks at one bucket alone, and at no number
    /// where buckets are one number wide. It takes no memory.
    pub fn through(&self, number: i64) -> u32
        ensures { result ≡ count_through number self.now }
    {
        let near = self.buckets.near(number);
        if self.buckets.shift == 0 {
            return near.to as u32;
        }
        let part = &self.values[near.from..near.to];
        (near.from + part.partition_point(|value| *value <= number)) as u32
    }
}
