//! Tests of the structures that indices are made of, and of spreads.
#![tactic(auto)]

#[cfg(test)]
mod tests;
