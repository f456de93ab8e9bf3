//! Sets of rows, a bit each.
ghost use Rattle.std.specs.Prelude.{◌≡◌, ◌<◌, ◌≤◌, ◌+◌, ℕ, pos};
ghost use Rattle.std.specs.Ordering.{int_eq};
ghost use Rattle.sgl_lanes.specs.Lanes.{has, lane_of};
ghost use Rattle.plan_executor.specs.RowSets.{IsWith};

use sgl_lanes::{lanes_in_either, one_lane, truth_at};
use sgl_values::{Num, TASK_ROWS};
use std::simd::prelude::*;

/// The set with one more row.
pub(crate) fn with_row(mask: u64, row: u32) -> u64
    requires { row < TASK_ROWS }
    ensures { IsWith mask row result }
{
    lanes_in_either(mask, one_lane(row))
}

// So many rows are compared at once, and so many sets of them there are.
const RUN: u32 = 8;

const RUN_SETS: u64 = 256;

/// The rows whose number is 1.
pub(crate) fn true_rows(numbers: &[Num; 64]) -> u64
    ensures { (row : ℕ) → row < TASK_ROWS → has result row ≡ int_eq (lane_of numbers.now row) (pos 1) }
{
    let mut rows = 0;
    // The last run comes first, so that each has the lowest bits when it is put in.
    for done in 0..TASK_ROWS / RUN {
        rows = rows * RUN_SETS + true_run(numbers, TASK_ROWS - RUN * (done + 1));
    }
    rows
}

// Those of a run from this row on whose number is 1, the first of them in the lowest bit.
#[inline(always)]
fn true_run(numbers: &[Num; 64], first: u32) -> u64
    requires { first + RUN ≤ TASK_ROWS }
    ensures small { result < RUN_SETS }
    ensures rows { (k : ℕ) → k < RUN → has result k ≡ int_eq (lane_of numbers.now (first + k)) (pos 1) }
{
    let mut run = [0; RUN as usize];
    for place in 0..RUN {
        run[place as usize] = u64::from(truth_at(numbers, first + place));
    }
    u64x8::from_array(run).simd_eq(u64x8::splat(1)).to_bitmask()
}
