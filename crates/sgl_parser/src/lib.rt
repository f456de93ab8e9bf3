//! Reads the tokens of a script into its tree.
#![tactic(auto)]

mod actions;
mod aggregates;
mod attributes;
mod conditions;
mod depth;
mod expressions;
mod folds;
mod items;
mod law;
mod parser;
mod post;
mod precedence;
mod reading;
mod statements;
mod words;

pub use law::{one_answer, one_reading, shapes_are_spelled};
pub use parser::{ParseFault, parse};
