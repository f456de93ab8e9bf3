//! The least pair of a window of points: a tournament tree over places, and a sweep of windows of equal width.
#![tactic(auto)]

mod along;
mod axis;
mod laid;
mod law;
mod layout;
mod node;
mod pair;
mod piece;
mod placing;
mod rank_node;
mod rank_tree;
mod ranking;
mod sweep_windows;
mod sweeper;
mod tree;
mod turn;
mod window;

pub use laid::{LaidPoints, sweep};
pub use law::{order_changes_no_least, pairs_have_a_least};
pub use pair::{Entry, Pair};
pub use tree::TourneyTree;
pub use window::{SweepPoint, Window};
