//! The ticks of a battle, unit by unit or by the tasks of a plan and many workers. With a plan all memory of a tick is taken
//! before it runs.
#![tactic(auto)]

mod battle;
mod ending;
mod kept_memory;
mod leaving;
mod plain;
mod prepared;
mod preparing;
mod settings;
mod spare;
mod tags;
mod task_run;
mod ticking;

pub use battle::Battle;
pub use settings::EngineSettings;
