//! The type rules of scripts: the first fault of a script, or the script with its names resolved.
#![tactic(auto)]

mod actions;
mod aggregates;
mod bodies;
mod declared;
mod each;
mod expressions;
mod finding;
mod items;
mod literals;
mod names;
mod parameters;
mod post_rules;
mod row_tests;
mod script_check;
mod statements;
mod table;
mod targets;
mod type_fault;

pub use finding::{Finding, TypeKind};
pub use script_check::check;
pub use type_fault::TypeFault;
