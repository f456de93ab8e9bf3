//! Points of the plane that are kept from one advance to the next, in cells by their group and place, and what a circle
//! holds of them.
#![tactic(auto)]

mod cell_iter;
mod circle;
mod finding;
mod grid;
mod held;
mod kept;
mod matching;
mod placing;
mod point;
mod span;
mod summing;

pub use cell_iter::CellIter;
pub use kept::Kept;
pub use point::{Cell, Group, KeepPoint, Sums};
