//! Tests of the crates that read the text of a script, and of those they stand on: a crate that has tests of its own is
//! proved twice.
#![tactic(auto)]

#[cfg(test)]
mod tests;
