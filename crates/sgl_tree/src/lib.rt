//! The plain tree of a script: what its tokens spell, with the places that faults are told at.
#![tactic(auto)]

mod expression;
mod item;
mod statement;

pub use expression::{Expr, Name};
pub use item::{Fold, Item, Literal, OnClause, Rule, Script, Spawn, Test, Write};
pub use statement::Stmt;
