//! What several crates of tests use: numbers, places, lists of one item, parts of texts, and the files of a run.
#![tactic(auto)]

mod parts;
mod runs;
mod skirmish;

pub use parts::{at, number, one, shown_operation, shown_place, small};
pub use runs::{files_of, name_files, words_in};
pub use skirmish::{SKIRMISH_MAIN, battle};
