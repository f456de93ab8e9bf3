//! Numbers in order, and a table over them that finds the rank of a number fast.
#![tactic(auto)]

mod buckets;
mod counting;
mod keys;
mod law;
mod order;
mod span;
mod table;

pub use law::ranks_keep_order;
pub use order::{elements_at, order_of};
pub use span::Span;
pub use table::RankTable;
