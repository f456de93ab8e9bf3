//! Unit tables: a text of comma-separated values as the world of tick 0, and worlds as text.
#![tactic(auto)]

mod columns;
mod faults;
mod fields;
mod law;
mod lines;
mod numbers;
mod read;
mod record;
mod records;
mod write;

pub use faults::UnitFault;
pub use law::rows_are_kept;
pub use lines::{Line, push_number, push_piece, push_signed_behind};
pub use read::read_units;
pub use write::write_world;
