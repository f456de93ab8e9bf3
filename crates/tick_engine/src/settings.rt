//! How ticks are run.

/// The seed of the draw, the number of workers, from 1 to 64, the most items of a tick, from 1 to 8,000,000, and whether a
/// tick is run unit by unit, without a plan and workers.
#[derive(Clone, Copy, Debug, PartialEq, Eq)]
pub struct EngineSettings {
    pub seed: u64,
    pub workers: u32,
    pub items: u64,
    pub plain: bool,
}
