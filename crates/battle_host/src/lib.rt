//! The top call: words and files in, the worlds and the status out.
#![tactic(auto)]

mod context;
mod explain;
mod reading;
mod run;
mod spectators;
mod start;
mod status;
mod status_line;
mod worlds;

pub use battle_compile::ScriptFault;
pub use battle_words::{Input, RunSettings, WordsFault, read_words};
pub use run::{run_battle, write_status};
pub use sgl_typed::TickFault;
pub use status::{ScriptRefusal, Status, UnitRefusal};
