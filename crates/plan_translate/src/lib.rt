//! The translation of a script to a plan.
#![tactic(auto)]

mod emission;
mod sides;
mod translating;
mod translation;

pub use translating::translate;
