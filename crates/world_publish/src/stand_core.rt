//! A stand as numbers alone, and events that are played on it one after another.
ghost use Rattle.std.specs.Prelude.{◌≡◌, ◌+◌, ◌^◌, ◌<◌, ◌≤◌, nat_lt, true, length, slice_index_or, IfOk, IfErr, OnOk};
ghost use Rattle.world_publish.specs.Machine.{after, is_allowed, opened, seen_by, Leads, IsBad, NoneFalls};

use crate::machine::{BadEvent, StandEvent};
use sgl_values::{Memory, SPECTATORS_MAX};
use std::alloc::Global;
use std::marker::Model;

/// A stand as numbers alone: the length of its list of worlds, how many positions are published, and what each spectator
/// has seen.
#[derive(Debug, Drop)]
pub struct StandCore {
    entries: u32,
    published: u32,
    seen: Vec<u32>,
}

impl Model for StandCore {
    ghost use Rattle.world_publish.specs.Machine.{Stand, IsStand};

    ghost Value = { Stand };

    ghost view = { λ core. record { entries = core.entries; published = core.published; seen = core.seen.items } };

    ghost invariant = { λ core. IsStand record { entries = core.entries; published = core.published; seen = core.seen.items } };
}

impl StandCore {
    /// A stand over a list of so many worlds, at least one, with so many spectators, at most 16. Position 0 is published,
    /// and each spectator has seen it. `Memory` is its only refusal, and no later call takes memory.
    pub fn new(alloc: Global, length: u32, spectators: u32) -> Result<StandCore, Memory>
        requires length { 0 < length }
        requires spectators { spectators ≤ SPECTATORS_MAX }
        ensures { IfOk result (λ core. core ≡ opened length spectators) }
    {
        let seen = Vec::from_elem(alloc, 0u32, spectators as usize)?;
        Ok(StandCore {
            entries: length,
            published: 1,
            seen,
        })
    }

    /// Plays events one after another, at most 4,294,967,295. `BadEvent` comes exactly at the first event that is not
    /// allowed or whose spectator is not there; the stand is then as the events before it left it.
    pub fn play(&mut self, events: &[StandEvent]) -> Result<(), BadEvent>
        requires { length events.now < 2 ^ 32 }
        ensures ok { OnOk result (Leads self.old events.now self.new) }
        ensures bad { IfErr result (λ bad. IsBad self.old events.now bad.at self.new) }
        ensures falls { NoneFalls self.old self.new }
        ensures spectators { length self.new.seen ≡ length self.old.seen }
    {
        for at in 0..events.len() {
            if !self.allows(events[at]) {
                return Err(BadEvent { at: at as u32 });
            }
            self.follow(events[at]);
        }
        Ok(())
    }

    /// The number of published positions, at least 1.
    pub fn published(&self) -> u32
        ensures value { result ≡ self.now.published }
        ensures some { 0 < result }
        ensures within { result ≤ self.now.entries }
    {
        self.published
    }

    /// The greatest position that a spectator has seen or learnt of. It is published.
    pub fn seen(&self, spectator: u32) -> u32
        requires { spectator < length self.now.seen }
        ensures value { result ≡ seen_by self.now spectator }
        ensures published { result < self.now.published }
    {
        self.seen[spectator as usize]
    }

    /// Whether an event is allowed.
    fn allows(&self, event: StandEvent) -> bool
        ensures { result ≡ is_allowed self.now event }
    {
        match event {
            StandEvent::Publish => self.published < self.entries,
            StandEvent::Look {
                spectator,
                position,
            } => self.has(spectator)
                && self.seen(spectator) <= position
                && position < self.published,
            StandEvent::Learn {
                spectator,
                position,
            } => self.has(spectator) && position < self.published,
        }
    }

    /// Whether a spectator is there.
    fn has(&self, spectator: u32) -> bool
        ensures { result ≡ nat_lt spectator (length self.now.seen) }
    {
        (spectator as usize) < self.seen.len()
    }

    /// An event that is allowed.
    fn follow(&mut self, event: StandEvent)
        requires { is_allowed self.old event ≡ true }
        ensures { self.new ≡ after self.old event }
    {
        match event {
            StandEvent::Publish => self.published += 1,
            StandEvent::Look {
                spectator,
                position,
            } => self.seen[spectator as usize] = position,
            StandEvent::Learn {
                spectator,
                position,
            } => {
                let seen = self.seen[spectator as usize];
                self.seen[spectator as usize] = seen.max(position);
            }
        }
    }
}
