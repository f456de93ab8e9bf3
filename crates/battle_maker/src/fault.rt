//! Why there is no sample.
ghost use Rattle.std.specs.Prelude.{◌≡◌};
ghost use Rattle.battle_maker.specs.declared.fault.MakeFault.TheVariants as faults;

use sgl_values::Memory;
use thiserror::Error;

/// A sample of too many units, or want of memory.
#[derive(Clone, Copy, Debug, PartialEq, Eq, Error)]
pub enum MakeFault {
    /// More than 65,536 units.
    #[error("too many units")]
    TooMany,
    /// Memory ran out; says nothing of the number of units.
    #[error("out of memory")]
    Memory,
}

impl From<Memory> for MakeFault {
    ghost from_gives = { λ _ fault. fault ≡ faults.Memory };

    fn from(_memory: Memory) -> MakeFault {
        MakeFault::Memory
    }
}
