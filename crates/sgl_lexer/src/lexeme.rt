//! Tokens: what kind each is, and the slice of the text and the place where it stands.

use crate::vocabulary::{Sign, Word};
use sgl_values::{List, Place};

/// What kind of token stands somewhere, with what its text says.
#[derive(Clone, Copy, Debug, PartialEq, Eq)]
pub enum TokenKind {
    Word(Word),
    /// A word that is not reserved: at most 31 bytes.
    Name,
    /// The number that at most 19 digits write.
    Number(u64),
    Sign(Sign),
}

/// A slice of the text, from byte `start` to before byte `end`.
///
/// `place` is the line and column of its first byte.
#[derive(Clone, Copy, Debug, PartialEq, Eq)]
pub struct Token {
    pub kind: TokenKind,
    pub start: u32,
    pub end: u32,
    pub place: Place,
}

/// All tokens of a text in order, and the place just behind its last byte.
#[derive(Debug, Drop)]
pub struct Tokens {
    pub list: List<Token>,
    pub end: Place,
}
