//! Batches: up to 256 cells with merged words, gathered before they go to the words of a tick.
ghost use Rattle.std.specs.Prelude.{◌≡◌, ◌<◌, ◌==◌, [], length, IfOk};
ghost use Rattle.effect_combine.specs.Batch.{IsBatch, Takes, TakesWord};

use crate::cell::{Added, Cell};
use crate::places::{find_place, put_word};
use crate::word::word_of;
use sgl_values::{Amount, BATCH_CELLS_MAX, List, Memory, Tag};
use std::alloc::Global;
use std::marker::Model;

/// Cells with the merged words of their amounts, at most 256 of them, by rising row and attribute. They are found by
/// halving. Contracts see the tags of the effect attributes and the list of the cells, of which no two are the same.
#[derive(Debug, Drop)]
pub struct Batch {
    tags: Vec<Tag>,
    cells: Vec<Cell>,
}

impl Model for Batch {
    ghost use Rattle.std.specs.Prelude.{◌≤◌, vec_capacity};
    ghost use Rattle.sgl_values.specs.declared.limit.TheConstants.{BATCH_CELLS_MAX};
    ghost use Rattle.effect_combine.specs.Batch.{Held, IsBatch};

    ghost Value = { Held };

    ghost view = { λ it. record { tags = it.tags.items; cells = it.cells.items } };

    ghost invariant = { λ it. IsBatch record { tags = it.tags.items; cells = it.cells.items } × (BATCH_CELLS_MAX ≤ vec_capacity it.cells) };
}

impl Batch {
    /// A batch without cells for effect attributes of these tags, with room for 256 cells. `Memory` is its only refusal,
    /// and no later call takes memory.
    pub fn new(alloc: Global, tags: &List<Tag>) -> Result<Batch, Memory>
        ensures { IfOk result (λ batch. batch ≡ record { tags = tags.now; cells = [] }) }
    {
        let cells = Vec::with_capacity(alloc, BATCH_CELLS_MAX as usize)?;
        let tags = Vec::from_slice(alloc, tags.as_slice())?;
        Ok(Batch { tags, cells })
    }

    /// Merges an amount for a row and an effect attribute into the word of their cell. `Full` comes exactly where 256
    /// other cells are held and this one is not, and then nothing changes. The attribute has a tag.
    pub fn add(&mut self, row: u32, attr: u32, amount: Amount) -> Added
        requires { attr < length self.old.tags }
        ensures taken { Takes self.old row attr amount result self.new }
        ensures tags { self.new.tags ≡ self.old.tags }
    {
        let word = word_of(self.tags[attr as usize], amount);
        self.add_word(row, attr, word)
    }

    /// Merges a word for a row and an effect attribute into that of their cell. `Full` comes exactly where 256 other cells
    /// are held and this one is not, and then nothing changes. The attribute has a tag.
    pub fn add_word(&mut self, row: u32, attr: u32, word: u64) -> Added
        requires { attr < length self.old.tags }
        ensures taken { TakesWord self.old row attr word result self.new }
        ensures tags { self.new.tags ≡ self.old.tags }
    {
        let tag = self.tags[attr as usize];
        let place = find_place(self.cells.as_slice(), row, attr);
        put_word(&mut self.cells, place, tag, Cell { row, attr, word })
    }

    /// The number of cells, at most 256.
    pub fn len(&self) -> u32
        ensures value { result ≡ length self.now.cells }
        ensures batch { IsBatch self.now }
    {
        self.cells.len() as u32
    }

    /// Whether no cell is held.
    pub fn is_empty(&self) -> bool
        ensures { result ≡ (length self.now.cells == 0) }
    {
        self.cells.is_empty()
    }

    /// The cells, lent, by rising row and attribute.
    pub fn cells(&self) -> &[Cell]
        ensures value { result.now ≡ self.now.cells }
        ensures batch { IsBatch self.now }
    {
        self.cells.as_slice()
    }

    /// Gives up all cells. The room for them stays.
    pub fn clear(&mut self)
        ensures { self.new ≡ record { tags = self.old.tags; cells = [] } }
    {
        self.cells.clear();
    }
}
