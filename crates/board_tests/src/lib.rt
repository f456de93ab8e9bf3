//! Tests of the outside, worlds, unit tables, words, boards and published worlds. They stand in no crate of these, so that each
//! is proved without them.
#![tactic(auto)]

#[cfg(test)]
mod tests;
