//! The indices of one world: every aggregate of a plan is answered from them, and the rows of every effect are found.
#![tactic(auto)]

mod aim;
mod asked_keys;
mod forms;
mod kept;
mod keyed;
mod laying;
mod left;
mod near;
mod others;
mod part;
mod parts;
mod passing;
mod passing_rows;
mod prepared;
mod ranged;
mod ready;
mod round;
mod row_iter;
mod set;
mod shelf;
mod slab;
mod slab_walk;
mod slabs;
mod sorting;
mod source;
mod sweep_call;
mod sweeps;
mod swept_use;
mod targets;
mod walk;

pub use aim::KeyedAim;
pub use passing_rows::PassingRows;
pub use row_iter::RowIter;
pub use set::{IndexOf, IndexSet};
pub use targets::Targets;
