//! Numbers, amounts, faults, places and lists: what every layer of the language speaks of.
#![tactic(auto)]

mod amount;
mod boxed;
mod digits;
mod distance;
mod fault;
mod item;
mod law;
mod least;
mod limit;
mod list;
mod memory;
mod number;
mod operator;
mod place;
mod text;

pub use amount::{Amount, PRIORITY_MAX};
pub use boxed::Boxed;
pub use digits::{are_digits, digits_within};
pub use distance::{is_in_circle, squared_distance};
pub use fault::{ArithFault, Fault, Tag, Val};
pub use item::{Item, ItemFault};
pub use law::{amounts_have_a_greatest, cells_ignore_order, item_faults_have_a_least};
pub use least::lesser;
pub use limit::{
    AGGREGATES_MAX, BATCH_CELLS_MAX, CLAUSES_MAX, CONSTS_MAX, DEPTH_MAX, EFFECTS_MAX, ITEMS_MAX,
    LOOKS_MAX, NAME_BYTES_MAX, NESTING_MAX, NODES_MAX, NUMBER_DIGITS_MAX, PARAMS_MAX,
    RANDOM_INDEX_MAX, ROWS_MAX, RUNS_MAX, SCRIPT_BYTES_MAX, SPECTATORS_MAX, TASK_ROWS, TESTS_MAX,
    TICKS_MAX, UNITS_BYTES_MAX, WORKERS_MAX,
};
pub use list::List;
pub use memory::Memory;
pub use number::{Num, VALUE_MAX, add, bounded, div, mul, rem, sub};
pub use operator::{BinOp, CmpOp, FoldKind};
pub use place::Place;
pub use text::Text;
