//! Why a script is not typed: its first fault, or want of memory.
ghost use Rattle.std.specs.Prelude.{◌≡◌};
ghost use Rattle.sgl_types.specs.declared.type_fault.TypeFault.TheVariants as refusals;

use crate::finding::TypeKind;
use sgl_values::{Memory, Place};

/// Why a script is not well-typed.
#[derive(Clone, Copy, Debug, PartialEq, Eq)]
pub enum TypeFault {
    /// The first fault of the script by its place, and of those at one place the one of the least kind.
    At { kind: TypeKind, place: Place },
    /// Want of memory, which tells nothing of the script.
    Memory,
}

impl From<Memory> for TypeFault {
    ghost from_gives = { λ e f. f ≡ refusals.Memory };

    fn from(_error: Memory) -> TypeFault {
        TypeFault::Memory
    }
}
