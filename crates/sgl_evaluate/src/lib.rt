//! The value of an expression, exactly as the language defines it. Nothing here takes memory.
#![tactic(auto)]

mod attribute;
mod calls;
mod context;
mod evaluator;
mod extreme;
mod fold;
mod forms;
mod frame;
mod number;
mod operation;
mod rights;
mod row_test;
mod scan;
mod tick_context;
mod writing;

pub use attribute::{attribute_of, distance_of};
pub use calls::{AggregateCalls, NoCalls};
pub use context::{ExprContext, number_or_zero};
pub use evaluator::{evaluate, evaluate_args};
pub use forms::RightForms;
pub use frame::Frame;
pub use number::number_at_once;
pub use operation::{compare, invert, negate, operate, placed};
pub use rights::Rights;
pub use row_test::{meets, passes};
pub use scan::{aggregate, fold_rows};
pub use tick_context::TickContext;
pub use writing::amount_given;
