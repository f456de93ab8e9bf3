//! Places in a text, by line and column.

/// A place in a text: a line and a column, both counted from 1. Columns count bytes. Places are ordered by line, then
/// by column.
#[derive(Clone, Copy, Debug, PartialEq, Eq, PartialOrd, Ord)]
pub struct Place {
    pub line: u32,
    pub col: u32,
}

impl Place {
    /// The place of the first byte of a text.
    pub const START: Place = Place { line: 1, col: 1 };
}
