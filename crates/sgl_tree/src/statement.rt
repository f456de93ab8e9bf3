//! The statements of `main` and of routines: `let`, `if` and `perform`.
use crate::expression::{Expr, Name};
use sgl_values::{List, Place};

/// A statement of `main` or of a routine.
#[derive(Clone, Debug, Drop)]
pub enum Stmt {
    /// Gives the value of an expression a name, up to the end of the block.
    Let {
        name: Name,
        value: Expr,
    },
    /// One of two blocks, by the condition. A missing `else` is an empty block.
    If {
        cond: Expr,
        yes: List<Stmt>,
        no: List<Stmt>,
    },
    /// Performs the action or routine `name` for `unit`, with the arguments behind the unit, at
    /// the place of the word `perform`.
    Perform {
        place: Place,
        name: Name,
        unit: Name,
        args: List<Expr>,
    },
}
