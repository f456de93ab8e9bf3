//! Points with their groups and weights, cells, and sums.
use sgl_values::Num;

/// What tells the points of one circle's kind from others.
#[derive(Clone, Copy, Debug, PartialEq, Eq)]
pub struct Group {
    pub a: i64,
    pub b: i64,
    pub c: i64,
    pub d: i64,
}

/// A point of the plane with the key that tells it, its group, and what it adds to a sum.
#[derive(Clone, Copy, Debug, PartialEq, Eq)]
pub struct KeepPoint {
    pub key: u32,
    pub group: Group,
    pub x: Num,
    pub y: Num,
    pub weight: Num,
}

impl KeepPoint {
    /// A point for a row that has none.
    pub(crate) fn none() -> KeepPoint {
        let group = Group {
            a: 0,
            b: 0,
            c: 0,
            d: 0,
        };
        let zero = Num::zero();
        KeepPoint {
            key: 0,
            group,
            x: zero,
            y: zero,
            weight: zero,
        }
    }
}

/// The points of one group in a square of 64 by 64: those whose coordinates have these quotients by 64, rounded toward
/// minus infinity.
#[derive(Clone, Copy, Debug, PartialEq, Eq)]
pub struct Cell {
    pub group: Group,
    pub cx: i64,
    pub cy: i64,
}

/// How many points were found, and the exact sum of their weights.
#[derive(Clone, Copy, Debug, PartialEq, Eq)]
pub struct Sums {
    pub count: u32,
    pub sum: i128,
}
