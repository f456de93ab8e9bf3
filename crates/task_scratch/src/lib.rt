//! What a worker works with: room for the frames of a task, where their items go, and what a task tells.
#![tactic(auto)]

mod room;
mod scratch;
mod sink;
mod slot_column;
mod slot_rows;
mod spare;
mod task_done;

pub use room::Room;
pub use scratch::Scratch;
pub use sink::Sink;
pub use slot_rows::SlotRows;
pub use spare::SpareRoom;
pub use task_done::TaskDone;
