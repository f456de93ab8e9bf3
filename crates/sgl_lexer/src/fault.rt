//! The first fault of a text that has no tokens, with its place and its message.

ghost use Rattle.std.specs.Prelude.{◌≡◌};
ghost use Rattle.sgl_lexer.specs.declared.fault.LexFault.TheVariants as faults;

use sgl_values::{Memory, Place};
use thiserror::Error;

/// The first fault of a text, at its first byte, or want of memory.
#[derive(Clone, Copy, Debug, PartialEq, Eq, Error)]
pub enum LexFault {
    /// A byte that begins no token and no comment and is no blank.
    #[error("bad byte at {}:{}", .0.line, .0.col)]
    BadByte(Place),
    /// A word or name of more than 31 bytes.
    #[error("long name at {}:{}", .0.line, .0.col)]
    LongName(Place),
    /// A number of more than 19 digits.
    #[error("long number at {}:{}", .0.line, .0.col)]
    LongNumber(Place),
    /// Memory ran out; says nothing of the text.
    #[error("out of memory")]
    Memory,
}

impl From<Memory> for LexFault {
    ghost from_gives = { λ _ fault. fault ≡ faults.Memory };

    fn from(_memory: Memory) -> LexFault {
        LexFault::Memory
    }
}
