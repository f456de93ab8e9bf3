//! What a tick needs, taken before it runs.
use effect_board::EffectBoard;
use env_table::WorldBuilder;
use index_set::IndexSet;
use task_board::Worker;
use tick_postprocess::PostPiece;

/// The indices of the world, the board of a tick, its workers, of which the last has the first seat, room for
/// the next world, and the pieces of the world that threads put behind `post`, none where one thread does.
#[derive(Drop)]
pub struct Prepared {
    pub(crate) index: IndexSet,
    pub(crate) board: EffectBoard,
    pub(crate) workers: Vec<Worker>,
    pub(crate) out: WorldBuilder,
    pub(crate) pieces: Vec<PostPiece>,
}

/// What is prepared for the next tick: nothing where it is run unit by unit.
#[derive(Drop)]
pub enum Setup {
    Plain,
    Planned(Prepared),
}
