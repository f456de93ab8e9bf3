//! A cell of a batch, how many cells a batch holds, and how it takes an amount.

/// A cell that a batch holds: its row and effect attribute, both numbers from 0, and the merged words of its amounts.
#[derive(Clone, Copy, Debug, PartialEq, Eq)]
pub struct Cell {
    pub row: u32,
    pub attr: u32,
    pub word: u64,
}

/// How a batch takes an amount.
#[derive(Clone, Copy, Debug, PartialEq, Eq)]
pub enum Added {
    /// It is merged into its cell.
    Kept,
    /// The batch holds as many other cells as it can, and is as it was.
    Full,
}
