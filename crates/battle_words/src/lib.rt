//! The words of the command line, and what they ask for.
#![tactic(auto)]

mod command_line;
mod decimal;

pub use command_line::{Input, RunSettings, WordsFault, read_words};

/// The number of workers where the words name none.
pub const WORKERS_DEFAULT: u32 = 4;

/// The most digits of a number on the command line.
pub const DIGITS_MAX: usize = 20;
