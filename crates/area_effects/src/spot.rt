//! Where a point stands in a sweep.
/// Where a point stands in a sweep along x: the ranks of its numbers x and y, and its number among
/// the points.
#[derive(Clone, Copy, Debug)]
pub(crate) struct Spot {
    pub(crate) place: u32,
    pub(crate) rank: u32,
    pub(crate) point: u32,
}
