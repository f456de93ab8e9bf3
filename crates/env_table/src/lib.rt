//! The environment table: the units of a tick as rows by rising key, and the builder that puts them together.
#![tactic(auto)]

mod arrays;
mod builder;
mod renewing;
mod table;

pub use builder::{PushFault, WorldBuilder};
pub use table::World;
