//! Trees in the making, one after the other.
ghost use Rattle.std.specs.Prelude.{[]};
ghost use Rattle.plan_rewrite.specs.Tidy.{Holds};

use crate::stack::Stack;
use battle_algebra::Node;
use std::alloc::Global;

/// The nodes of trees, one after the other, and the sizes of the trees.
#[derive(Debug, Drop)]
pub struct Grove {
    pub nodes: Stack<Node>,
    pub sizes: Stack<usize>,
}

impl Grove {
    /// No trees. It takes no memory.
    pub fn new(alloc: Global) -> Grove
        ensures { Holds result [] }
    {
        Grove {
            nodes: Stack::new(alloc),
            sizes: Stack::new(alloc),
        }
    }
}
