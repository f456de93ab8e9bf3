//! Points of the plane.
/// A point of the plane.
#[derive(Clone, Copy, Debug, PartialEq, Eq)]
pub struct AreaPoint {
    pub x: i64,
    pub y: i64,
}
