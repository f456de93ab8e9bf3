//! The core of a tick: workers claim its tasks, each once, and give amounts to words that merge them in any order. What
//! each worker did is kept, so that it can be seen that nothing is lost.
#![tactic(auto)]

mod core_tick;
mod event;
mod law;
mod play;
mod words;
mod worker;
mod worker_list;

pub use core_tick::CoreTick;
pub use event::{CoreEvent, Give, PlayFault};
pub use law::{
    cells_have_words, each_task_once, events_keep_fair, gives_join, starts_are_fair,
    totals_ignore_order, totals_join, workers_stand_for_all,
};
