//! What all units of a tick read.
use env_table::World;
use sgl_typed::TScript;

/// What all units of a tick read: the script, the world before the tick, and the seed of the draw.
#[derive(Clone, Copy)]
pub struct TickContext<'a> {
    pub script: &'a TScript,
    pub world: &'a World,
    pub seed: u64,
}
