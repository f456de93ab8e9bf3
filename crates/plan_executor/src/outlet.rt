//! Where the items of a task go.
use effect_board::EffectBoard;

/// The board that effects go to, and the limit of items.
#[derive(Clone, Copy)]
pub(crate) struct Outlet<'a> {
    pub board: &'a EffectBoard,
    pub limit: u64,
}
