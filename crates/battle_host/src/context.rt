//! What all parts of a run are given.
use battle_words::RunSettings;
use std::alloc::Global;

/// What a run is given from its settings to its end: the runtime, in whose threads it works, the allocator, what its words ask
/// for, and the gate that its workers and spectators pass.
#[derive(Drop)]
pub struct RunContext<'a, R, G> {
    pub rt: &'a R,
    pub alloc: Global,
    pub run: &'a RunSettings,
    pub gate: &'a G,
}
