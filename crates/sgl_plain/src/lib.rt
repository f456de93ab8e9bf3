//! The plain engine: the items of a tick, one unit after the other. What they are is said in `sgl_typed`.
#![tactic(auto)]

mod action;
mod collected;
mod plain;
mod slots;
mod statements;

pub use plain::{PlainTick, plain_items};
