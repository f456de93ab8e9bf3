//! The numbers that units draw: the same unit draws the same number for the same index throughout a tick.
#![tactic(auto)]

mod draw;

pub use draw::random;

#[cfg(test)]
mod tests;
