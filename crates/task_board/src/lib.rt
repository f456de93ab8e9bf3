//! The tasks of a tick, run by any number of workers over one board. Nothing here takes memory.
#![tactic(auto)]

mod run;
mod summary;
mod sums;
mod tasks;
mod worker;

pub use run::{finish_all, work};
pub use summary::Summary;
pub use tasks::Tasks;
pub use worker::Worker;
