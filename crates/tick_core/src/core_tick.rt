//! `CoreTick`: a tick as a machine, with a call for each event that can befall it.
ghost use Rattle.std.specs.Prelude.{◌≡◌, ◌≢◌, ◌+◌, ◌<◌, ◌≤◌, true, length, slice_index, IfOk, OnOk, OnErr};
ghost use Rattle.tick_core.specs.Core.{at_start, lives, splits};
ghost use Rattle.tick_core.specs.Events.{is_allowed, after, answer_of};
ghost use Rattle.tick_core.specs.Fair.{Fair, IsCore};
ghost use Rattle.tick_core.specs.Plays.{SameTable};

use crate::event::{CoreEvent, Deed, Give};
use crate::words::{merge_amount, reset_words, start_words};
use crate::worker::Worker;
use crate::worker_list::{first_worker, join_workers, lives, note_deed, rest_all, split_off};
use sgl_values::{EFFECTS_MAX, List, Memory, ROWS_MAX, Tag};
use std::alloc::Global;
use std::marker::Model;

/// A tick as a machine: tasks that are given out in order, workers that claim them and give amounts, and words into which
/// the amounts are merged. Workers are numbered from 0 in the order in which they were split off. The word of a row and
/// an effect attribute, both numbered from 0, has the number row * (number of tags) + attribute. Contracts see the state,
/// with all that each worker did. Its calls refuse with `Memory` alone, and a refused call changes nothing.
#[derive(Debug, Drop)]
pub struct CoreTick {
    tasks: u32,
    next: u32,
    rows: u32,
    tags: Vec<Tag>,
    words: Vec<u64>,
    workers: Vec<Option<Worker>>,
}

impl Model for CoreTick {
    ghost use Rattle.tick_core.specs.Core.{Core};
    ghost use Rattle.tick_core.specs.Fair.{IsCore};

    ghost Value = { Core };

    ghost view = { λ it. record {
      tasks = it.tasks;
      next = it.next;
      rows = it.rows;
      tags = it.tags.items;
      words = it.words.items;
      workers = it.workers.items;
    } };

    ghost invariant = { λ it. IsCore (view it) };
}

impl CoreTick {
    /// A core with one worker, 0, who did nothing, and all words at their start: at most 65,536 rows with a word for each
    /// of at most 16 tags.
    pub fn new(alloc: Global, tasks: u32, rows: u32, tags: &List<Tag>) -> Result<CoreTick, Memory>
        requires few { rows ≤ ROWS_MAX }
        requires narrow { length tags.now ≤ EFFECTS_MAX }
        ensures { IfOk result (λ core. core ≡ at_start tasks rows tags.now) }
    {
        let tags = Vec::from_slice(alloc, tags.as_slice())?;
        let words = start_words(alloc, rows, tags.as_slice())?;
        let workers = first_worker(alloc)?;
        Ok(CoreTick {
            tasks,
            next: 0,
            rows,
            tags,
            words,
            workers,
        })
    }

    /// A worker who lives takes the next task; `None` exactly where all are given out, and then nothing changes.
    pub fn claim(&mut self, worker: u32) -> Result<Option<u32>, Memory>
        requires { lives self.old.workers worker ≡ true }
        ensures event { OnOk result (self.new ≡ after (CoreEvent.Claim worker) self.old) }
        ensures answer { IfOk result (λ task. task ≡ answer_of (CoreEvent.Claim worker) self.old) }
        ensures err { OnErr result (self.new ≡ self.old) }
        ensures fair { Fair self.new }
    {
        if self.next >= self.tasks {
            return Ok(None);
        }
        let task = self.next;
        note_deed(&mut self.workers, worker, Deed::Claim { task })?;
        self.next = task + 1;
        Ok(Some(task))
    }

    /// A worker who lives gives an amount, as a word, which is merged into a word that there is.
    pub fn give(&mut self, worker: u32, word: u32, amount: u64) -> Result<(), Memory>
        requires lives { lives self.old.workers worker ≡ true }
        requires word { word < length self.old.words }
        ensures event { OnOk result (self.new ≡ after (CoreEvent.Give worker word amount) self.old) }
        ensures err { OnErr result (self.new ≡ self.old) }
        ensures fair { Fair self.new }
    {
        note_deed(&mut self.workers, worker, Deed::Give(Give { word, amount }))?;
        merge_amount(&mut self.words, self.tags.as_slice(), word, amount);
        Ok(())
    }

    /// A worker who lives splits off a new one, whose number is answered: one above those before. Fewer than
    /// 4,294,967,295 were split off before.
    pub fn split(&mut self, worker: u32) -> Result<u32, Memory>
        requires lives { lives self.old.workers worker ≡ true }
        requires few { splits self.old < 4294967295 }
        ensures event { OnOk result (self.new ≡ after (CoreEvent.Split worker) self.old) }
        ensures number { IfOk result (λ number. number ≡ splits self.old + 1) }
        ensures err { OnErr result (self.new ≡ self.old) }
        ensures fair { Fair self.new }
    {
        let number = self.workers.len() as u32;
        split_off(&mut self.workers)?;
        Ok(number)
    }

    /// A worker takes over what another did, who lives no longer. Both live, and they are two.
    pub fn join(&mut self, into: u32, from: u32) -> Result<(), Memory>
        requires into { lives self.old.workers into ≡ true }
        requires from { lives self.old.workers from ≡ true }
        requires apart { into ≢ from }
        ensures event { OnOk result (self.new ≡ after (CoreEvent.Join into from) self.old) }
        ensures err { OnErr result (self.new ≡ self.old) }
        ensures fair { Fair self.new }
    {
        join_workers(&mut self.workers, into, from)?;
        Ok(())
    }

    /// The next tick: all words are at their start, no task is given out, and all who live have done nothing. It takes no
    /// memory.
    pub fn turn(&mut self)
        ensures event { self.new ≡ after CoreEvent.Turn self.old }
        ensures table { SameTable self.old self.new }
        ensures fair { Fair self.new }
    {
        self.next = 0;
        reset_words(&mut self.words, self.tags.as_slice());
        rest_all(&mut self.workers);
    }

    /// A word, by its number.
    pub fn word(&self, word: u32) -> u64
        requires { word < length self.now.words }
        ensures value { result ≡ slice_index self.now.words word }
        ensures core { IsCore self.now }
    {
        self.words[word as usize]
    }

    /// Whether an event is allowed now: its workers live, its word there is, and it joins no worker into itself.
    pub(crate) fn allows(&self, event: CoreEvent) -> bool
        ensures value { result ≡ is_allowed event self.now }
        ensures core { IsCore self.now }
    {
        let workers = self.workers.as_slice();
        match event {
            CoreEvent::Claim { worker } => lives(workers, worker),
            CoreEvent::Give { worker, word, .. } => {
                lives(workers, worker) && (word as usize) < self.words.len()
            }
            CoreEvent::Split { worker } => lives(workers, worker),
            CoreEvent::Join { into, from } => {
                lives(workers, into) && lives(workers, from) && into != from
            }
            CoreEvent::Turn => true,
        }
    }

    /// Where the core takes its memory.
    pub(crate) fn allocator(&self) -> Global
        ensures core { IsCore self.now }
    {
        *self.workers.allocator()
    }
}
