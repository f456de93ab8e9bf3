//! By what work is done that threads share.
ghost use Rattle.std.specs.Prelude.{◌≡◌, ◌/◌, max};

use std::alloc::Global;

/// Threads and memory for work: at most so many threads share it, one where it is 0.
#[derive(Drop)]
pub struct Means<'a, R> {
    pub rt: &'a R,
    pub threads: usize,
    pub alloc: Global,
}

impl<'a, R> Means<'a, R> {
    /// The means for the work on one of so many groups: one thread, unless there are two or more for each.
    pub fn within(&self, groups: u32) -> Means<'a, R>
        ensures { result.threads ≡ max (self.now.threads / max groups 1) 1 }
    {
        Means {
            rt: self.rt,
            threads: (self.threads / groups.max(1) as usize).max(1),
            alloc: self.alloc,
        }
    }
}
