//! Points of the plane with keys and groups.
use sgl_values::Num;

/// A point of the plane, with the key that tells it and the group that a search may leave out.
#[derive(Clone, Copy, Debug, PartialEq, Eq)]
pub struct NearPoint {
    pub x: Num,
    pub y: Num,
    pub key: u32,
    pub group: i64,
}
