//! Values with the keys that break ties, the order of these pairs, and pairs of a group.

use sgl_values::Num;

/// A value with the key that breaks ties: pairs are ordered by value, and then by key.
#[derive(Clone, Copy, Debug, PartialEq, Eq, PartialOrd, Ord)]
pub struct Pair {
    pub value: Num,
    pub key: u32,
}

/// A pair of a group.
#[derive(Clone, Copy, Debug, PartialEq, Eq)]
pub struct Entry {
    pub pair: Pair,
    pub group: i64,
}
