//! Rewriting of plans to normal form.
#![tactic(auto)]

mod descent;
mod glance;
mod grove;
mod known;
mod merging;
mod normalizing;
mod numbering;
mod pruning;
mod renaming;
mod stack;
mod subtrees;
mod task;
mod trail;

pub use normalizing::rewrite;
