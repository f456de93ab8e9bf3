//! What holds on the way down to a node.
ghost use Rattle.std.specs.Prelude.{◌≡◌, OnOk};
ghost use Rattle.plan_rewrite.specs.Trails.{closed, forked, here_of, no_trail, Roomy};

use crate::known::Known;
use crate::numbering::{take_size, top_size};
use crate::renaming::Renaming;
use crate::stack::Stack;
use sgl_values::Memory;
use std::alloc::Global;

/// What holds on the way from the root to a node, and how much of it holds where second children begin.
#[derive(Debug, Drop)]
pub struct Trail {
    pub renamings: Vec<Renaming>,
    pub above: Vec<Known>,
    pub firsts: Stack<usize>,
    pub seconds: Stack<usize>,
}

impl Trail {
    /// At the root. It takes no memory.
    pub fn new(alloc: Global) -> Trail
        ensures { here_of result ≡ no_trail }
    {
        Trail {
            renamings: Vec::new(alloc),
            above: Vec::new(alloc),
            firsts: Stack::new(alloc),
            seconds: Stack::new(alloc),
        }
    }

    /// Refused where more cannot be put down without loss of what is saved.
    pub fn check_room(&self) -> Result<(), Memory>
        ensures { OnOk result (Roomy (here_of self.now)) }
    {
        let roomy = top_size(&self.firsts) <= self.renamings.len()
            && top_size(&self.seconds) <= self.above.len();
        if roomy { Ok(()) } else { Err(Memory) }
    }

    /// At a node of two children.
    pub fn fork(&mut self) -> Result<(), Memory>
        ensures { OnOk result (here_of self.new ≡ forked (here_of self.old)) }
    {
        self.firsts.push(self.renamings.len())?;
        self.seconds.push(self.above.len())?;
        Ok(())
    }

    /// At a leaf.
    pub fn close(&mut self)
        ensures { here_of self.new ≡ closed (here_of self.old) }
    {
        let renamings = take_size(&mut self.firsts);
        self.renamings.truncate(renamings);
        let above = take_size(&mut self.seconds);
        self.above.truncate(above);
    }
}
