//! The spectators of a run: a stage at which its worlds are shown, and what each spectator notes of them.
#![tactic(auto)]

mod audience;
mod law;
mod stage;
mod watch;

pub use audience::{begin_watch, end_watch, look_all};
pub use law::no_spectator_writes_no_line;
pub use stage::{Stage, end_stage, publish_world};
pub use watch::Watch;
