//! Work on lists that so many threads share at most.
#![tactic(auto)]

mod each;
mod made;
mod share;

pub use each::for_each_mut;
pub use made::make_each;
pub use share::{share_of, threads_for};
