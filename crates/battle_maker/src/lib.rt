//! The sample: a script and the table of its units, for any number of units.
#![tactic(auto)]

mod fault;
mod sample;
mod script;
mod units;

pub use fault::MakeFault;
pub use sample::make;

#[cfg(test)]
mod tests;
