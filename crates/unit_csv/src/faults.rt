//! Why a unit table is refused, in the order in which its faults are told.
ghost use Rattle.std.specs.Prelude.{◌≡◌};

use sgl_values::Memory;

/// Why a unit table is refused: the first of its faults. Records are numbered from 1 behind the header, columns from 1.
/// The faults come in this order: `NoHeader`; those of the header, column by column; `MissingColumn`; and then record by
/// record `TooMany`, `Ragged`, and the faults of its fields, column by column.
#[derive(Clone, Copy, Debug, PartialEq, Eq)]
pub enum UnitFault {
    /// There is no record.
    NoHeader,
    /// No column has this name, the least such one: 0 is `key`, and i the const attribute i, counted from 1.
    MissingColumn(u32),
    /// The name of this column is neither `key` nor that of a const attribute.
    ExtraColumn(u32),
    /// The name of this column is that of an earlier one.
    TwiceColumn(u32),
    /// This record has not as many fields as the header.
    Ragged(u32),
    /// In this record and column stands something else than an optional `-` and one or more digits.
    BadNumber(u32, u32),
    /// In this record and column stands a number outside the range of values.
    OutOfRange(u32, u32),
    /// The key of this record is not from 1 to 4,294,967,295.
    BadKey(u32),
    /// An earlier record has the key of this one.
    TwiceKey(u32),
    /// There are more than 65,536 records.
    TooMany,
    /// Want of memory, in place of any other answer.
    Memory,
}

impl From<Memory> for UnitFault {
    ghost use Rattle.unit_csv.specs.declared.faults.UnitFault.TheVariants.{Memory as OutOfMemory};

    ghost from_gives = { λ _ fault. fault ≡ OutOfMemory };

    fn from(_memory: Memory) -> UnitFault {
        UnitFault::Memory
    }
}
