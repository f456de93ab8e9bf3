//! Lanes beside the evaluation of each row for itself.
ghost use Rattle.std.specs.Prelude.{◌≤◌, length};

use crate::equal::assert_equal;
use crate::expressions::{
    binary, leaf, nested, number, on_the_greatest, operation, spread, unsorted,
};
use crate::sample::{Parts, Sample, make_parts};
use sgl_evaluate::{NoCalls, evaluate};
use sgl_lanes::*;
use sgl_typed::{Attr, TExpr};
use sgl_values::{BinOp, CmpOp, Memory, Num, Val};
use std::alloc::Global;
use std::test::Fail;

// Whether the lanes of a set hold what was wanted, and each the value of its row, in this room for right sides.
fn agree_with(
    sample: &Sample,
    mask: u64,
    expr: &TExpr,
    wanted: Lanes,
    room: &mut [LaneValues],
) -> bool
    requires rows { 64 ≤ length sample.now.frame.tick.world.now.world.rows }
    requires slots { 192 ≤ length sample.now.slots.now }
{
    let mut out = [Num::whole(1); 64];
    let kind = lanes(sample, mask, expr, &mut out, room);
    let mut agree = kind == wanted || mask == 0;
    for lane in 0..64 {
        let value = evaluate(&NoCalls, &sample.frame_at(lane), expr);
        let held = match kind {
            Lanes::Numbers => Val::N(number_at(&out, lane)),
            Lanes::Truths => Val::B(truth_at(&out, lane)),
            Lanes::Unknown => value,
        };
        agree &= held == value || !has_lane(mask, lane);
    }
    agree
}

// The same with room for two right sides, one within the other, and without room.
fn agree_in(sample: &Sample, mask: u64, expr: &TExpr, wanted: Lanes) -> bool
    requires rows { 64 ≤ length sample.now.frame.tick.world.now.world.rows }
    requires slots { 192 ≤ length sample.now.slots.now }
{
    let mut room = [LaneValues::unknown(); 2];
    let with_room = agree_with(sample, mask, expr, wanted, &mut room);
    let without = agree_with(sample, mask, expr, wanted, &mut []);
    with_room && without
}

// Sets of lanes: all, none, one at each end, those with odd numbers, and a part.
const MASKS: [u64; 6] = [
    u64::MAX,
    0,
    1,
    1 << 63,
    0xAAAA_AAAA_AAAA_AAAA,
    0x00FF_0000_1234_0007,
];

// Whether the lanes hold what was wanted in each of these sets.
fn agree(parts: &Parts, masks: &[u64], expr: &TExpr, wanted: Lanes) -> bool {
    let sample = parts.sample();
    if !sample.is_whole() {
        return false;
    }
    let mut agree = true;
    for mask in masks {
        agree &= agree_in(&sample, *mask, expr, wanted);
    }
    agree
}

// What lanes hold of an expression: so many make numbers, and those behind them truths.
fn sort_of(number: u32, numbers: u32) -> Lanes {
    if number < numbers {
        Lanes::Numbers
    } else {
        Lanes::Truths
    }
}

// Whether they do for an operation on two parts.
fn agree_on(
    alloc: Global,
    parts: &Parts,
    op: BinOp,
    left: TExpr,
    right: TExpr,
    wanted: Lanes,
) -> Result<bool, Memory> {
    let expr = binary(alloc, op, left, right)?;
    Ok(agree(parts, &MASKS, &expr, wanted))
}

// The first leaf for which lanes and rows differ.
fn differing_leaf(parts: &Parts) -> Option<u32> {
    for number in 0..12 {
        if !agree(parts, &MASKS, &leaf(number), sort_of(number, 9)) {
            return Some(number);
        }
    }
    None
}

#[test]
fn leaves_hold_what_rows_evaluate_to(rt: HostRuntime) -> Result<(), Fail> {
    let parts = make_parts(rt.alloc())?;
    assert_equal(&rt, &differing_leaf(&parts), &None);
    Ok(())
}

// The first operation for which they do.
fn differing_operation(alloc: Global, parts: &Parts) -> Result<Option<u32>, Memory> {
    for number in 0..15 {
        let expr = operation(alloc, number)?;
        if !agree(parts, &MASKS, &expr, sort_of(number, 6)) {
            return Ok(Some(number));
        }
    }
    Ok(None)
}

#[test]
fn operations_hold_what_rows_evaluate_to(rt: HostRuntime) -> Result<(), Fail> {
    let alloc = rt.alloc();
    let parts = make_parts(alloc)?;
    assert_equal(&rt, &differing_operation(alloc, &parts)?, &None);
    Ok(())
}

// Operations, and what lanes hold of them where a number other than 0 is written on their right.
const BESIDE_NUMBERS: [(BinOp, Lanes); 13] = [
    (BinOp::Add, Lanes::Numbers),
    (BinOp::Sub, Lanes::Numbers),
    (BinOp::Mul, Lanes::Numbers),
    (BinOp::Div, Lanes::Numbers),
    (BinOp::Rem, Lanes::Numbers),
    (BinOp::Cmp(CmpOp::Eq), Lanes::Truths),
    (BinOp::Cmp(CmpOp::Ne), Lanes::Truths),
    (BinOp::Cmp(CmpOp::Lt), Lanes::Truths),
    (BinOp::Cmp(CmpOp::Le), Lanes::Truths),
    (BinOp::Cmp(CmpOp::Gt), Lanes::Truths),
    (BinOp::Cmp(CmpOp::Ge), Lanes::Truths),
    (BinOp::And, Lanes::Unknown),
    (BinOp::Or, Lanes::Unknown),
];

// The first operation for which lanes and rows differ where a number is on its right.
fn differs_beside(alloc: Global, parts: &Parts) -> Result<Option<BinOp>, Memory> {
    for (op, wanted) in BESIDE_NUMBERS {
        let attribute = TExpr::Unit(Attr::Const(1));
        if !agree_on(alloc, parts, op, attribute, number(3), wanted)? {
            return Ok(Some(op));
        }
    }
    Ok(None)
}

#[test]
fn a_number_stands_on_the_right_of_each_operation(rt: HostRuntime) -> Result<(), Fail> {
    let alloc = rt.alloc();
    let parts = make_parts(alloc)?;
    assert_equal(&rt, &differs_beside(alloc, &parts)?, &None);
    Ok(())
}

const DIVISIONS: [BinOp; 2] = [BinOp::Div, BinOp::Rem];

// The first division of which something is known where a 0 is on its right.
fn known_by_0(alloc: Global, parts: &Parts) -> Result<Option<BinOp>, Memory> {
    for op in DIVISIONS {
        let attribute = TExpr::Unit(Attr::Const(1));
        if !agree_on(alloc, parts, op, attribute, number(0), Lanes::Unknown)? {
            return Ok(Some(op));
        }
    }
    Ok(None)
}

#[test]
fn a_division_by_a_0_that_is_written_is_unknown(rt: HostRuntime) -> Result<(), Fail> {
    let alloc = rt.alloc();
    let parts = make_parts(alloc)?;
    assert_equal(&rt, &known_by_0(alloc, &parts)?, &None);
    Ok(())
}

const DIVISORS: [u32; 12] = [
    1, 2, 3, 7, 10, 64, 641, 65_536, 999_983, 1_048_575, 1_048_576, 16_777_213,
];

const FACTORS: [u32; 5] = [1, 331, 65_537, 1_000_003, 700_000_001];

// The first factor whose multiples, on both sides of 0, lanes and rows divide differently.
fn undivided_factor(
    alloc: Global,
    parts: &Parts,
    op: BinOp,
    divisor: u32,
) -> Result<Option<u32>, Memory> {
    for factor in FACTORS {
        let left = spread(alloc, factor)?;
        let right = TExpr::Number(Num::whole(divisor));
        if !agree_on(alloc, parts, op, left, right, Lanes::Numbers)? {
            return Ok(Some(factor));
        }
    }
    Ok(None)
}

// The same for each division by each divisor.
fn undivided(alloc: Global, parts: &Parts) -> Result<Option<(u32, BinOp, u32)>, Memory> {
    for op in DIVISIONS {
        for divisor in DIVISORS {
            if let Some(factor) = undivided_factor(alloc, parts, op, divisor)? {
                return Ok(Some((factor, op, divisor)));
            }
        }
    }
    Ok(None)
}

#[test]
fn each_divisor_that_is_written_divides(rt: HostRuntime) -> Result<(), Fail> {
    let alloc = rt.alloc();
    let parts = make_parts(alloc)?;
    assert_equal(&rt, &undivided(alloc, &parts)?, &None);
    Ok(())
}

// A number in the lanes where the second attribute is 0, and a few above it in the others.
fn from(alloc: Global, first: i32) -> Result<TExpr, Memory> {
    binary(
        alloc,
        BinOp::Add,
        number(first),
        TExpr::Unit(Attr::Const(1)),
    )
}

// Whether a number and a few above it agree on the left of a number that is written.
fn agree_from(
    alloc: Global,
    parts: &Parts,
    op: BinOp,
    first: i32,
    right: i32,
) -> Result<bool, Memory> {
    let left = from(alloc, first)?;
    agree_on(alloc, parts, op, left, number(right), Lanes::Numbers)
}

// The first of these numbers for which lanes and rows differ.
fn differ_from(
    alloc: Global,
    parts: &Parts,
    op: BinOp,
    firsts: &[i32; 7],
    right: i32,
) -> Result<Option<i32>, Memory> {
    for first in firsts {
        if !agree_from(alloc, parts, op, *first, right)? {
            return Ok(Some(*first));
        }
    }
    Ok(None)
}

const ENDS_OF_SHORT: [i32; 7] = [
    -1_073_741_831,
    -1_073_741_827,
    -1_073_741_824,
    -3,
    1_073_741_817,
    1_073_741_820,
    1_073_741_824,
];

const SHORT_DIVISORS: [i32; 6] = [2, 3, 7, 524_289, 1_048_575, 1_048_576];

// The first of these numbers that lanes and rows divide differently, with the divisor.
fn undivided_end(alloc: Global, parts: &Parts) -> Result<Option<(i32, BinOp, i32)>, Memory> {
    for op in DIVISIONS {
        for divisor in SHORT_DIVISORS {
            if let Some(first) = differ_from(alloc, parts, op, &ENDS_OF_SHORT, divisor)? {
                return Ok(Some((first, op, divisor)));
            }
        }
    }
    Ok(None)
}

#[test]
fn numbers_divide_on_both_sides_of_the_end_of_short_ones(rt: HostRuntime) -> Result<(), Fail> {
    let alloc = rt.alloc();
    let parts = make_parts(alloc)?;
    assert_equal(&rt, &undivided_end(alloc, &parts)?, &None);
    Ok(())
}

// Numbers below divisors of 32 bits, among them and on both sides of their end.
const LANE_DIVISORS: [i32; 6] = [-8, 1, 641, 1_073_741_815, 1_073_741_821, 2_000_000_000];

// The first number at an end that lanes and rows divide differently by a number and a few above it.
fn differ_by(alloc: Global, parts: &Parts, op: BinOp, divisor: i32) -> Result<Option<i32>, Memory> {
    for first in ENDS_OF_SHORT {
        let left = from(alloc, first)?;
        let right = from(alloc, divisor)?;
        if !agree_on(alloc, parts, op, left, right, Lanes::Numbers)? {
            return Ok(Some(first));
        }
    }
    Ok(None)
}

// The same for each division by each of these.
fn undivided_in_lanes(alloc: Global, parts: &Parts) -> Result<Option<(i32, BinOp, i32)>, Memory> {
    for op in DIVISIONS {
        for divisor in LANE_DIVISORS {
            if let Some(first) = differ_by(alloc, parts, op, divisor)? {
                return Ok(Some((first, op, divisor)));
            }
        }
    }
    Ok(None)
}

#[test]
fn divisors_differ_from_lane_to_lane(rt: HostRuntime) -> Result<(), Fail> {
    let alloc = rt.alloc();
    let parts = make_parts(alloc)?;
    assert_equal(&rt, &undivided_in_lanes(alloc, &parts)?, &None);
    Ok(())
}

// Ends of small products, and the factors that they are the ends for.
const ENDS_OF_SMALL: [(i32, i32); 10] = [
    (536_870_912, 1),
    (268_435_456, 3),
    (1_048_576, 1_000),
    (1_048_576, 1_023),
    (524_288, 1_024),
    (524_288, 524_288),
    (524_288, -524_288),
    (524_288, -1),
    (1, 536_870_912),
    (0, 1_073_741_824),
];

// Numbers on both sides of an end, below 0 and above it; those that are tried reach 6 further.
fn around(end: i32) -> [i32; 7] {
    let low = end.wrapping_neg();
    [
        low.wrapping_sub(7),
        low.wrapping_sub(3),
        low,
        -3,
        end.wrapping_sub(7),
        end.wrapping_sub(3),
        end,
    ]
}

// The first number at an end that lanes and rows multiply differently, with the factor.
fn differing_product(alloc: Global, parts: &Parts) -> Result<Option<(i32, i32)>, Memory> {
    for (end, factor) in ENDS_OF_SMALL {
        if let Some(first) = differ_from(alloc, parts, BinOp::Mul, &around(end), factor)? {
            return Ok(Some((first, factor)));
        }
    }
    Ok(None)
}

#[test]
fn products_agree_on_both_sides_of_the_end_of_small_ones(rt: HostRuntime) -> Result<(), Fail> {
    let alloc = rt.alloc();
    let parts = make_parts(alloc)?;
    assert_equal(&rt, &differing_product(alloc, &parts)?, &None);
    Ok(())
}

// The first depth to which right sides stand one within the other, and lanes and rows differ.
fn differing_depth(alloc: Global, parts: &Parts) -> Result<Option<u32>, Memory> {
    for depth in 0..6 {
        let expr = nested(alloc, depth)?;
        if !agree(parts, &MASKS, &expr, Lanes::Numbers) {
            return Ok(Some(depth));
        }
    }
    Ok(None)
}

#[test]
fn right_sides_stand_deeper_than_there_is_room(rt: HostRuntime) -> Result<(), Fail> {
    let alloc = rt.alloc();
    let parts = make_parts(alloc)?;
    assert_equal(&rt, &differing_depth(alloc, &parts)?, &None);
    Ok(())
}

// Products of short numbers, and what lanes hold of them.
const PRODUCTS: [(u32, u32, Lanes); 7] = [
    (1_000_000, 1_000_000, Lanes::Numbers),
    (1_000_001, 1_000_000, Lanes::Unknown),
    (2_147_483_647, 465, Lanes::Numbers),
    (2_147_483_647, 466, Lanes::Unknown),
    (2_147_483_648, 465, Lanes::Numbers),
    (2_147_483_648, 466, Lanes::Unknown),
    (4_294_967_295, 4_294_967_295, Lanes::Unknown),
];

// The first of these products for which lanes hold something else.
fn product_otherwise(alloc: Global, parts: &Parts) -> Result<Option<(u32, u32)>, Memory> {
    for (left, right, wanted) in PRODUCTS {
        let factor = TExpr::Number(Num::whole(left));
        let by = TExpr::Number(Num::whole(right));
        if !agree_on(alloc, parts, BinOp::Mul, factor, by, wanted)? {
            return Ok(Some((left, right)));
        }
    }
    Ok(None)
}

#[test]
fn a_product_of_short_numbers_may_be_wide(rt: HostRuntime) -> Result<(), Fail> {
    let alloc = rt.alloc();
    let parts = make_parts(alloc)?;
    assert_equal(&rt, &product_otherwise(alloc, &parts)?, &None);
    Ok(())
}

// Operations on the greatest number and the second attribute, each in a set of one lane. The
// attribute is 0 in the lanes 0 and 7, 1 in the lanes 1 and 8, and 2 in lane 2.
const ON_THE_GREATEST: [(BinOp, u64, Lanes); 8] = [
    (BinOp::Add, 1, Lanes::Numbers),
    (BinOp::Add, 1 << 1, Lanes::Unknown),
    (BinOp::Mul, 1 << 1, Lanes::Numbers),
    (BinOp::Mul, 1 << 2, Lanes::Unknown),
    (BinOp::Div, 1 << 7, Lanes::Unknown),
    (BinOp::Div, 1 << 8, Lanes::Numbers),
    (BinOp::Rem, 1 << 7, Lanes::Unknown),
    (BinOp::Rem, 1 << 8, Lanes::Numbers),
];

// The first of these operations for which the lane holds something else, with its set.
fn fault_otherwise(alloc: Global, parts: &Parts) -> Result<Option<(BinOp, u64)>, Memory> {
    for (op, mask, wanted) in ON_THE_GREATEST {
        let expr = on_the_greatest(alloc, op)?;
        if !agree(parts, &[mask], &expr, wanted) {
            return Ok(Some((op, mask)));
        }
    }
    Ok(None)
}

#[test]
fn a_fault_in_a_lane_of_the_set_is_unknown(rt: HostRuntime) -> Result<(), Fail> {
    let alloc = rt.alloc();
    let parts = make_parts(alloc)?;
    assert_equal(&rt, &fault_otherwise(alloc, &parts)?, &None);
    Ok(())
}

// Sets of lanes, and what they hold of the third slot, which is of several sorts.
const SORTS: [(u64, Lanes); 5] = [
    (0b0001, Lanes::Numbers),
    (0b0010, Lanes::Unknown),
    (0b1100, Lanes::Truths),
    (0b0101, Lanes::Unknown),
    (u64::MAX, Lanes::Unknown),
];

// The first of these sets that holds something else.
fn sort_otherwise(parts: &Parts) -> Option<u64> {
    for (mask, wanted) in SORTS {
        if !agree(parts, &[mask], &TExpr::Slot(2), wanted) {
            return Some(mask);
        }
    }
    None
}

#[test]
fn values_of_several_sorts_are_unknown(rt: HostRuntime) -> Result<(), Fail> {
    let parts = make_parts(rt.alloc())?;
    assert_equal(&rt, &sort_otherwise(&parts), &None);
    Ok(())
}

// The first expression of no sort of which something is known.
fn known_of_no_sort(alloc: Global, parts: &Parts) -> Result<Option<u32>, Memory> {
    for number in 0..6 {
        let expr = unsorted(alloc, number)?;
        if !agree(parts, &[2], &expr, Lanes::Unknown) {
            return Ok(Some(number));
        }
    }
    Ok(None)
}

#[test]
fn what_is_of_no_sort_is_unknown(rt: HostRuntime) -> Result<(), Fail> {
    let alloc = rt.alloc();
    let parts = make_parts(alloc)?;
    assert_equal(&rt, &known_of_no_sort(alloc, &parts)?, &None);
    Ok(())
}
