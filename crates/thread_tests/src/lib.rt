//! Tests of work that threads share.
#![tactic(auto)]

#[cfg(test)]
mod each;
#[cfg(test)]
mod made;
