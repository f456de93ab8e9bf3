//! Boxes of the plane with amounts.
use sgl_values::Num;

/// A box of the plane with an amount. The points with x from `x1` to `x2` and y from `y1` to `y2`,
/// all ends included, lie in it; none does where `x1` is above `x2` or `y1` above `y2`.
#[derive(Clone, Copy, Debug, PartialEq, Eq)]
pub struct AreaBox {
    pub x1: i64,
    pub x2: i64,
    pub y1: i64,
    pub y2: i64,
    pub amount: Num,
}
