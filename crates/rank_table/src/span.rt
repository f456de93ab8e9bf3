//! Neighbouring places of a list.

/// Neighbouring places of a list: the first, and the one behind the last.
#[derive(Clone, Copy)]
pub struct Span {
    pub from: usize,
    pub to: usize,
}
