//! Extremes of the rows that pass tests, swept for all acting rows at once.
#![tactic(auto)]

mod ask;
mod fault_list;
mod found;
mod group_sweep;
mod laying;
mod prepared;
mod sides;
mod swept;

pub use prepared::{PreparedSweep, prepare_sweep};
pub use row_groups::Means;
pub use swept::Swept;
