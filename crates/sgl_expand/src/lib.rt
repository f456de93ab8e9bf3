//! Typed scripts with their routines written out.
#![tactic(auto)]

mod law;
mod numbers;
mod prune;
mod script;
mod sizes;
mod write;

pub use law::written_scripts_keep_items;
pub use script::{ExpandFault, expand};
