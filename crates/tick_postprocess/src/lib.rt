//! The end of a tick behind its items: the cells of all rows, then `post`, then the next world. Nothing here takes memory.
#![tactic(auto)]

mod assigning;
mod block;
mod cells;
mod fault;
mod lane_sets;
mod next_world;
mod piece;
mod pieces;
mod row;
mod row_lanes;
mod rules;
mod unit;
mod values;

pub use fault::PostFault;
pub use next_world::post;
pub use piece::{PostPiece, leave_pieces, post_pieces};
pub use pieces::post_beside;
