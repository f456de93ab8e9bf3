//! What an expression may read.
ghost use Rattle.std.specs.Prelude.{◌≡◌, ◌<◌, length};
ghost use Rattle.sgl_values.specs.World.{row_at};

use crate::tick_context::TickContext;
use sgl_values::{Num, Val};

/// What an expression may read. `unit` is the number of the row that acts and `target` that of the row that an action
/// writes to; only amounts read `target`. `combined` has the combined effects by their numbers; only `post` reads them.
/// A slot, an attribute or an effect that is not there reads 0.
#[derive(Clone, Copy)]
pub struct Frame<'a> {
    pub tick: TickContext<'a>,
    pub unit: u32,
    pub slots: &'a [Val],
    pub target: u32,
    pub combined: &'a [Num],
}

impl Frame<'_> {
    ghost use Rattle.sgl_evaluate.specs.Frame.{context_of, IsFrame};

    /// The same frame with other slots.
    pub fn with_slots<'b>(&'b self, slots: &'b [Val]) -> Frame<'b>
        ensures rows { IsFrame self.entry.now → IsFrame result }
        ensures context { context_of result ≡ record (context_of self.entry.now) { slots = slots.entry.now } }
    {
        Frame {
            tick: self.tick,
            unit: self.unit,
            slots,
            target: self.target,
            combined: self.combined,
        }
    }

    /// The same frame with another target.
    pub fn with_target<'b>(&'b self, target: u32) -> Frame<'b>
        requires { target < length self.now.tick.world.now.world.rows }
        ensures rows { IsFrame self.entry.now → IsFrame result }
        ensures context { context_of result ≡ record (context_of self.entry.now) { target = row_at self.entry.now.tick.world.now.world target } }
        ensures target { result.target ≡ target }
    {
        Frame {
            tick: self.tick,
            unit: self.unit,
            slots: self.slots,
            target,
            combined: self.combined,
        }
    }
}
