//! Scripts with their names resolved, and what they mean.
#![tactic(auto)]

mod comparison;
mod copy;
mod deep_copy;
mod definition_copy;
mod law;
mod renaming;
mod schema;
mod script;
mod script_copy;
mod statement_copy;
mod tick_fault;

pub use comparison::{are_all_same, are_same, are_same_calls};
pub use copy::{copy_call, copy_expr, copy_exprs};
pub use deep_copy::DeepCopy;
pub use law::{
    exprs_are_shared, items_join, next_worlds_follow, runs_are_ticks, scripts_are_shared,
    slots_are_own, tests_are_shared,
};
pub use renaming::{OtherSlots, rename_expr, rename_exprs};
pub use schema::{EffectAttr, Schema};
pub use script::{
    AggUse, Attr, Kind, TAction, TAgg, TExpr, TOn, TRoutine, TRule, TScript, TSpawn, TStmt, TTest,
    TWrite,
};
pub use tick_fault::TickFault;
