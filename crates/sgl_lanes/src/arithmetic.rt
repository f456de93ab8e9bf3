//! Sums, differences and products of lanes.
ghost use Rattle.std.specs.Prelude.{◌≡◌, ◌<◌, ◌*ℤ◌, true, Ok};
ghost use Rattle.sgl_values.specs.Values.{difference, product, sum};
ghost use Rattle.sgl_lanes.specs.Lanes.{EachLane, IsNear, IsShort, IsWithin, lane_of};

use crate::factor::SmallProduct;
use crate::lane_set::LANES;
use crate::near::{Difference, Sum, put};
use crate::operation::combine;
use crate::product::{LittleProduct, ShortProduct};
use crate::side::Side;
use sgl_values::{Num, add, mul, sub};

/// Puts the sums into lanes, and tells whether there is one in each lane of the set.
pub(crate) fn add_each<L: Side, R: Side>(
    mask: u64,
    left: &L,
    right: &R,
    out: &mut [Num; LANES],
) -> bool
    ensures { result ≡ true → EachLane mask (λ k. sum (L.at left.now k) (R.at right.now k) ≡ Ok (lane_of out.new k)) }
{
    if put(&Sum, left, right, out) {
        true
    } else {
        combine(mask, left, right, out, |a, b| add(a, b))
    }
}

/// Puts the differences into lanes, and tells whether there is one in each lane of the set.
pub(crate) fn subtract_each<L: Side, R: Side>(
    mask: u64,
    left: &L,
    right: &R,
    out: &mut [Num; LANES],
) -> bool
    ensures { result ≡ true → EachLane mask (λ k. difference (L.at left.now k) (R.at right.now k) ≡ Ok (lane_of out.new k)) }
{
    if put(&Difference, left, right, out) {
        true
    } else {
        combine(mask, left, right, out, |a, b| sub(a, b))
    }
}

/// Puts the products into lanes, and tells whether there is one in each lane of the set.
pub(crate) fn multiply_each<L: Side, R: Side>(
    mask: u64,
    left: &L,
    right: &R,
    out: &mut [Num; LANES],
) -> bool
    ensures { result ≡ true → EachLane mask (λ k. product (L.at left.now k) (R.at right.now k) ≡ Ok (lane_of out.new k)) }
{
    match right.factor() {
        Some(factor) if put(&SmallProduct { factor }, left, right, out) => true,
        _ => multiply_wide(mask, left, right, out),
    }
}

// The same where a product may be wide.
fn multiply_wide<L: Side, R: Side>(mask: u64, left: &L, right: &R, out: &mut [Num; LANES]) -> bool
    ensures { result ≡ true → EachLane mask (λ k. product (L.at left.now k) (R.at right.now k) ≡ Ok (lane_of out.new k)) }
{
    if put(&LittleProduct, left, right, out) {
        true
    } else if put(&ShortProduct, left, right, out) {
        true
    } else {
        combine(mask, left, right, out, |a, b| mul(a, b))
    }
}
