//! The answers of one use of an extreme.

use group_sweeps::Swept;

/// The answers of the call of a node, and of each other node that calls the same.
#[derive(Debug, Drop)]
pub(crate) struct SweptUse {
    pub(crate) node: usize,
    pub(crate) swept: Swept,
}
