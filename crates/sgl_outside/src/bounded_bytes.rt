//! Bytes in memory, within a room that was taken at once.
ghost use Rattle.std.specs.Prelude.{◌≡◌, ◌≤◌, ◌-◌, ◌++◌, IsTrue, [], false, length, nat_lt, not, vec_capacity, IfOk};

use sgl_values::Memory;
use std::alloc::Global;

/// Bytes, and how many of them there is room for.
#[derive(Drop)]
pub struct BoundedBytes {
    pub bytes: Vec<u8>,
    pub room: usize,
    ghost reserved: { room ≤ vec_capacity bytes },
    ghost within: { length bytes.items ≤ room },
}

impl BoundedBytes {
    /// No bytes, and memory for `room` of them.
    pub fn new(alloc: Global, room: usize) -> Result<Self, Memory>
        ensures bytes { IfOk result (λ held. held.bytes.items ≡ []) }
        ensures room { IfOk result (λ held. held.room ≡ room) }
        ensures reserved { IfOk result (λ held. room ≤ vec_capacity held.bytes) }
    {
        match Vec::with_capacity(alloc, room) {
            Ok(bytes) => Ok(BoundedBytes { bytes, room }),
            Err(_) => Err(Memory),
        }
    }

    /// All bytes.
    pub fn as_slice(&self) -> &[u8]
        ensures bytes { result.now ≡ self.now.bytes.items }
        ensures within { length result.now ≤ self.now.room }
    {
        self.bytes.as_slice()
    }

    /// Puts the whole piece behind the bytes, or nothing where it is longer than the room that is
    /// left, and tells which.
    pub fn add(&mut self, piece: &[u8]) -> bool
        ensures fits { result ≡ not (nat_lt (self.old.room - length self.old.bytes.items) (length piece.now)) }
        ensures added { IsTrue result → self.new.bytes.items ≡ self.old.bytes.items ++ piece.now }
        ensures stays { result ≡ false → self.new.bytes.items ≡ self.old.bytes.items }
        ensures room { self.new.room ≡ self.old.room }
    {
        if piece.len() > self.room - self.bytes.len() {
            return false;
        }
        self.bytes.extend_from_slice(piece).is_ok()
    }
}
