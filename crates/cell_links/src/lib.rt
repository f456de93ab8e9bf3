//! The rows of groups as doubly linked lists, kept by index in arrays: a row is put behind the others of a group and taken
//! out again in constant time.
#![tactic(auto)]

mod circles;
mod links;
mod walk;

pub use links::CellLinks;
pub use walk::ListWalk;

#[cfg(test)]
mod tests;
