//! The program as a call: the words, the files and the streams of the process, and the status that it ends with.
#![tactic(auto)]

mod adapters;
mod program;

pub use adapters::{DiskFolder, Stream};
pub use program::run_program;
