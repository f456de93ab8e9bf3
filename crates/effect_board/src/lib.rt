//! The board that the workers of a tick share: a word from which they claim tasks, and words into which they merge what
//! they give. Each call is one atomic step for each task or cell, takes no memory and waits for nobody. A worker that is
//! alone merges what it gives into words of its own, with no atomic step.
#![tactic(auto)]

mod board;
mod handles;
mod lanes;
mod law;
mod own_lanes;
mod rule;
mod seat;
mod told;
mod view;
mod words;

pub use handles::{EffectBoard, Seat};
pub use law::{cells_give_what_is_held, claims_are_counted, misses_come_last, steps_are_events};
pub use rule::{BoardLayout, BoardRule, ClaimStep, GiveStep, JoinStep, SplitStep};
pub use view::View;
