//! Sinks in memory, which tell their bytes.
ghost use Rattle.std.specs.Prelude.{◌≡◌};
ghost use Rattle.sgl_outside.specs.Shelves.{is_listed};

use crate::bounded_bytes::BoundedBytes;
use crate::{Failed, Sink};
use sgl_values::{List, Memory};
use std::alloc::Global;

/// A sink with room for some bytes, where listed writes fail.
///
/// Writes are numbered from 1. Write number n fails exactly where n is listed or the piece is longer than the room
/// that is left; every other write takes the whole piece. The count is the number of failed writes.
#[derive(Drop)]
pub struct MemSink {
    held: BoundedBytes,
    failing: List<u32>,
    writes: u64,
    faults: u64,
}

// Whether this number is listed.
fn has_number(plan: &[u32], number: u64) -> bool
    ensures { result ≡ is_listed plan.now number }
{
    plan.iter().any(|listed| u64::from(*listed) == number)
}

impl MemSink {
    ghost use Rattle.std.specs.Prelude.{◌≡◌, ◌≤◌, [], length, IfOk};
    ghost use Rattle.sgl_outside.specs.Memory.{mem_sink_bytes, mem_sink_room, mem_sink_reserved, mem_sink_plan, mem_sink_writes, mem_sink_faults};

    /// A sink that takes room for `room` bytes now, where the listed writes fail.
    pub fn new(alloc: Global, room: usize, failing: List<u32>) -> Result<Self, Memory>
        ensures bytes { IfOk result (λ s. mem_sink_bytes s ≡ []) }
        ensures room { IfOk result (λ s. mem_sink_room s ≡ room) }
        ensures reserved { IfOk result (λ s. room ≤ mem_sink_reserved s) }
        ensures plan { IfOk result (λ s. mem_sink_plan s ≡ failing) }
        ensures writes { IfOk result (λ s. mem_sink_writes s ≡ 0) }
        ensures faults { IfOk result (λ s. mem_sink_faults s ≡ 0) }
    {
        Ok(MemSink {
            held: BoundedBytes::new(alloc, room)?,
            failing,
            writes: 0,
            faults: 0,
        })
    }

    /// The bytes that were written.
    pub fn written(&self) -> &[u8]
        ensures bytes { result.now ≡ mem_sink_bytes self.now }
        ensures within { length result.now ≤ mem_sink_room self.now }
    {
        self.held.as_slice()
    }
}

impl Sink for MemSink {
    ghost use Rattle.std.specs.Prelude.{◌≡◌, ◌-◌, ◌||◌, length, nat_lt, is_err, IfOk, Some};
    ghost use Rattle.std.specs.Io.KnownBytes.{WriteAppends};
    ghost use Rattle.sgl_outside.specs.Causes.{HasCause, count_after, next_count};
    ghost use Rattle.sgl_outside.specs.Shelves.{is_listed};
    ghost use Rattle.sgl_outside.specs.Sinks.{Takes};
    ghost use Rattle.sgl_outside.specs.Memory.{mem_sink_bytes, mem_sink_room, mem_sink_plan, mem_sink_writes, mem_sink_faults};

    ghost written = { λ s. Some (mem_sink_bytes s) };

    ghost faults = { mem_sink_faults };

    fn write(&mut self, piece: &[u8]) -> Result<usize, Failed>
        ensures takes { IfOk result (Takes piece.now) }
        ensures bytes { WriteAppends (Some (mem_sink_bytes self.old)) (Some (mem_sink_bytes self.new)) result piece.now }
        ensures cause { HasCause (mem_sink_faults self.old) (mem_sink_faults self.new) result }

        // It fails exactly where it is listed with its number, or the piece is longer than the room that is left.
        ensures fails { is_err result ≡ (is_listed (mem_sink_plan self.old) (mem_sink_writes self.new) || nat_lt (mem_sink_room self.old - length (mem_sink_bytes self.old)) (length piece.now)) }
        ensures whole { IfOk result (λ n. n ≡ length piece.now) }
        ensures count { mem_sink_faults self.new ≡ count_after (mem_sink_faults self.old) result }
        ensures writes { mem_sink_writes self.new ≡ next_count (mem_sink_writes self.old) }
        ensures room { mem_sink_room self.new ≡ mem_sink_room self.old }
        ensures plan { mem_sink_plan self.new ≡ mem_sink_plan self.old }
    {
        self.writes = self.writes.saturating_add(1);
        if has_number(self.failing.as_slice(), self.writes) || !self.held.add(piece) {
            self.faults = self.faults.saturating_add(1);
            return Err(Failed);
        }
        Ok(piece.len())
    }
}

/// A sink with room for some bytes, which fails exactly where a piece is longer than the room that is left; every other
/// write takes the whole piece. The count is the number of failed writes.
#[derive(Drop)]
pub struct SteadySink {
    held: BoundedBytes,
    faults: u64,
}

impl SteadySink {
    ghost use Rattle.std.specs.Prelude.{◌≡◌, ◌≤◌, [], length, IfOk};
    ghost use Rattle.sgl_outside.specs.Memory.{steady_sink_bytes, steady_sink_room, steady_sink_reserved, steady_sink_faults};

    /// A sink that takes room for `room` bytes now.
    pub fn new(alloc: Global, room: usize) -> Result<Self, Memory>
        ensures bytes { IfOk result (λ s. steady_sink_bytes s ≡ []) }
        ensures room { IfOk result (λ s. steady_sink_room s ≡ room) }
        ensures reserved { IfOk result (λ s. room ≤ steady_sink_reserved s) }
        ensures faults { IfOk result (λ s. steady_sink_faults s ≡ 0) }
    {
        Ok(SteadySink {
            held: BoundedBytes::new(alloc, room)?,
            faults: 0,
        })
    }

    /// The bytes that were written.
    pub fn written(&self) -> &[u8]
        ensures bytes { result.now ≡ steady_sink_bytes self.now }
        ensures within { length result.now ≤ steady_sink_room self.now }
    {
        self.held.as_slice()
    }
}

impl Sink for SteadySink {
    ghost use Rattle.std.specs.Prelude.{◌≡◌, ◌-◌, length, nat_lt, is_err, IfOk, Some};
    ghost use Rattle.std.specs.Io.KnownBytes.{WriteAppends};
    ghost use Rattle.sgl_outside.specs.Causes.{HasCause, count_after};
    ghost use Rattle.sgl_outside.specs.Sinks.{Takes};
    ghost use Rattle.sgl_outside.specs.Memory.{steady_sink_bytes, steady_sink_room, steady_sink_faults};

    ghost written = { λ s. Some (steady_sink_bytes s) };

    ghost faults = { steady_sink_faults };

    fn write(&mut self, piece: &[u8]) -> Result<usize, Failed>
        ensures takes { IfOk result (Takes piece.now) }
        ensures bytes { WriteAppends (Some (steady_sink_bytes self.old)) (Some (steady_sink_bytes self.new)) result piece.now }
        ensures cause { HasCause (steady_sink_faults self.old) (steady_sink_faults self.new) result }

        // It fails exactly where the piece is longer than the room that is left.
        ensures fails { is_err result ≡ nat_lt (steady_sink_room self.old - length (steady_sink_bytes self.old)) (length piece.now) }
        ensures whole { IfOk result (λ n. n ≡ length piece.now) }
        ensures count { steady_sink_faults self.new ≡ count_after (steady_sink_faults self.old) result }
        ensures room { steady_sink_room self.new ≡ steady_sink_room self.old }
    {
        if !self.held.add(piece) {
            self.faults = self.faults.saturating_add(1);
            return Err(Failed);
        }
        Ok(piece.len())
    }
}
