//! How many points lie in a box, and the sum of their weights: by a grid, and by range trees.
#![tactic(auto)]

mod build;
mod edge;
mod ends;
mod heights;
mod index;
mod law;
mod level;
mod placing;
mod point;
mod rank_grid;
mod rank_index;
mod rows;
mod span;

pub use index::RangeIndex;
pub use law::boxes_ignore_order;
pub use point::Point;
