//! Points with weights.

use sgl_values::Num;

/// A point of the plane and its weight.
#[derive(Clone, Copy, Debug, PartialEq, Eq)]
pub struct Point {
    pub x: i64,
    pub y: i64,
    pub weight: Num,
}
