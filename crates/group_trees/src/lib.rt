//! The nearest row that passes tests, from a tree for each group of rows.
#![tactic(auto)]

mod nearest;
mod plane;
mod trees;

pub use nearest::nearest_found;
pub use plane::{Plane, plane_of};
pub use trees::GroupTrees;
