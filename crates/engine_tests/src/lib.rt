//! Tests of the evaluator, the plain engine, the end of a tick, and scripts that are written out.
#![tactic(auto)]

#[cfg(test)]
mod tests;
