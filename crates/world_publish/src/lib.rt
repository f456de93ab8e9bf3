//! Published worlds: one publisher shows whole worlds, and spectators look at them without waiting for it. No spectator is
//! shown an older world than before, or than it was told of.
#![tactic(auto)]

mod law;
mod machine;
mod opening;
mod publisher;
mod receipt;
mod rule;
mod showing;
mod spectator;
mod stand_core;

pub use law::{learnt_is_not_passed, steps_are_events};
pub use machine::{BadEvent, StandEvent};
pub use opening::stand;
pub use publisher::Publisher;
pub use receipt::Receipt;
pub use rule::Course;
pub use spectator::{Shown, Spectator};
pub use stand_core::StandCore;
