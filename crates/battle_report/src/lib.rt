//! What a run prints beside its worlds: the line of a refusal, summaries, plans, what was reached of them, and what was seen.
#![tactic(auto)]

mod entries;
mod line;
mod plan_lines;
mod reach_line;
mod script_line;
mod summary_line;
mod tick_line;
mod unit_line;
mod watch_line;
mod words;

pub use plan_lines::write_plan;
pub use reach_line::write_reach;
pub use script_line::write_script_fault;
pub use summary_line::write_summary;
pub use tick_line::write_tick_fault;
pub use unit_line::write_unit_fault;
pub use watch_line::{Look, write_watch};
