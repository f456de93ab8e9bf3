//! Range indices of the groups of a world, and counts and sums answered from them.
#![tactic(auto)]

mod axes;
mod boxes;
mod others;
mod ranged;

pub use axes::Axes;
pub use boxes::Boxes;
pub use others::count_others;
pub use ranged::{GroupBoxes, Ranged, count, sum, tallied};
