//! The rows of a world by their keys, through a table of all keys.
#![tactic(auto)]

mod table;

pub use table::KeyTable;

#[cfg(test)]
mod tests;
