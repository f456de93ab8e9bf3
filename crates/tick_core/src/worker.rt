//! The tasks that one worker claimed and the amounts that it gave, noted in order.
ghost use Rattle.std.specs.Prelude.{◌≡◌, OnOk, OnErr};
ghost use Rattle.tick_core.specs.Core.{idle};
ghost use Rattle.tick_core.specs.Events.{with_deed, joined};

use crate::event::{Deed, Give};
use sgl_values::Memory;
use std::alloc::Global;
use std::marker::Model;

/// What one worker did. Contracts see the tasks that it claimed and what it gave.
#[derive(Debug, Drop)]
pub(crate) struct Worker {
    claimed: Vec<u32>,
    gives: Vec<Give>,
}

impl Model for Worker {
    ghost use Rattle.tick_core.specs.Core.{Worker};

    ghost Value = { Worker };

    ghost view = { λ it. record { claimed = it.claimed.items; gives = it.gives.items } };
}

impl Worker {
    /// That of a worker who did nothing. It takes no memory.
    pub(crate) fn new(alloc: Global) -> Worker
        ensures { result ≡ idle }
    {
        Worker {
            claimed: Vec::new(alloc),
            gives: Vec::new(alloc),
        }
    }

    /// Notes one thing more that the worker did.
    pub(crate) fn note(&mut self, deed: Deed) -> Result<(), Memory>
        ensures ok { OnOk result (self.new ≡ with_deed self.old deed) }
        ensures err { OnErr result (self.new ≡ self.old) }
    {
        match deed {
            Deed::Claim { task } => self.claimed.push(task)?,
            Deed::Give(give) => self.gives.push(give)?,
        }
        Ok(())
    }

    /// Takes over what another worker did.
    pub(crate) fn take_over(&mut self, other: &mut Worker) -> Result<(), Memory>
        ensures ok { OnOk result (self.new ≡ joined self.old other.old) }
        ensures err { OnErr result (self.new ≡ self.old) }
        ensures kept { OnErr result (other.new ≡ other.old) }
    {
        self.gives.reserve(other.gives.len())?;
        self.claimed.append(&mut other.claimed)?;
        // It is not refused, as there is room.
        let _ = self.gives.append(&mut other.gives);
        Ok(())
    }

    /// Forgets what the worker did.
    pub(crate) fn rest(&mut self)
        ensures { self.new ≡ idle }
    {
        self.claimed.clear();
        self.gives.clear();
    }
}
