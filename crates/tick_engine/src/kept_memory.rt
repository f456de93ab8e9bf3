//! A piece of memory that is taken and given back, so that what ticks give back is kept for the next ones.
use std::alloc::Global;

// The allocator of the C library (glibc) gives the top of its heap back to the system, and behind the freeing of a piece
// of S bytes, S at most 32 MiB, only where that top is above 2 S. So S is as large as it may be, less room for its head.
const KEPT_BYTES: usize = 32 * 1024 * 1024 - 65_536;

/// The piece, where there is memory for it. Nothing is written there, so it costs no page.
pub(crate) fn early_piece(alloc: Global) -> Option<Vec<u8>> {
    Vec::with_capacity(alloc, KEPT_BYTES).ok()
}
