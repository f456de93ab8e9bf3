//! The events of a core, what is given in one, and why events are not played to the end.

/// An amount that is given for a word, by the word's number. It is a word too: the one of an effect's amount.
#[derive(Clone, Copy, Debug, PartialEq, Eq)]
pub struct Give {
    pub word: u32,
    pub amount: u64,
}

/// What a worker does that is noted of it: it claims a task, or gives an amount.
#[derive(Clone, Copy)]
pub(crate) enum Deed {
    Claim { task: u32 },
    Give(Give),
}

/// What can befall a core. Workers and words are told by their numbers, from 0.
#[derive(Clone, Copy, Debug, PartialEq, Eq)]
pub enum CoreEvent {
    /// A worker takes the next task, where one is left.
    Claim { worker: u32 },
    /// A worker gives an amount, which is merged into its word.
    Give { worker: u32, word: u32, amount: u64 },
    /// A worker is split off by another, and has the next number.
    Split { worker: u32 },
    /// A worker takes over what another did, which lives no longer.
    Join { into: u32, from: u32 },
    /// The next tick: all words are as at the start, no task is given out, and no worker did anything.
    Turn,
}

/// Why events are not played to the end.
#[derive(Clone, Copy, Debug, PartialEq, Eq)]
pub enum PlayFault {
    /// The event with this number, counted from 0, is the first of a worker who does not live, with a word that there is
    /// not, or that joins a worker into itself. All events before it were played.
    Bad { at: u32 },
    /// Want of memory. Some of the first events were played.
    Memory,
}
