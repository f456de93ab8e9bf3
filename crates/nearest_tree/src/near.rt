//! How near a point is.

/// How far a point is, as the square of its distance, with its key, which breaks ties.
#[derive(Clone, Copy, Debug, PartialEq, Eq, PartialOrd, Ord)]
pub struct Near {
    pub distance: i128,
    pub key: u32,
}
