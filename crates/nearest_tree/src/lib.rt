//! The nearest of points of the plane to a place: a k-d tree.
#![tactic(auto)]

mod keys;
mod law;
mod mark;
mod near;
mod node;
mod order;
mod point;
mod query;
mod tree;

pub use law::{nearest_ignores_order, nearest_is_least};
pub use near::Near;
pub use point::NearPoint;
pub use tree::NearTree;
