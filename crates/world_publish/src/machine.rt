//! The events of a stand as numbers alone, and the event that is not allowed.

/// What happens at a stand. Spectators and positions are numbered from 0.
#[derive(Clone, Copy, Debug, PartialEq, Eq)]
pub enum StandEvent {
    /// One more position is published.
    Publish,
    /// A spectator is shown a published position, which is not before the one that it has seen.
    Look { spectator: u32, position: u32 },
    /// A spectator is told of a published position. What it has seen does not fall.
    Learn { spectator: u32, position: u32 },
}

/// The number of an event that is not allowed, or whose spectator is not there.
#[derive(Clone, Copy, Debug, PartialEq, Eq)]
pub struct BadEvent {
    pub at: u32,
}
