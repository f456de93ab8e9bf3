//! Which rows stay from one advance to the next.
ghost use Rattle.std.specs.Prelude.{◌≡◌, ◌<◌, ◌≤◌, ◌∷◌, ◌++◌, [], length, vec_capacity, IfOk};
ghost use Rattle.std.specs.List.Sorted.{IsPermutation};
ghost use Rattle.std.specs.Bool.{OnTrue};
ghost use Rattle.cell_keep.specs.Rows.{rows_in};
ghost use Rattle.sgl_values.specs.declared.limit.TheConstants.{ROWS_MAX};

use crate::point::KeepPoint;
use sgl_values::Memory;
use std::alloc::Global;

/// For each new point so far the row of the held point with its key, and the rows of the held points whose keys are gone.
#[derive(Debug, Drop)]
pub(crate) struct Matching {
    pub(crate) taken: Vec<Option<u32>>,
    pub(crate) gone: Vec<u32>,
    pub ghost taken_room: { ROWS_MAX ≤ vec_capacity taken },
    pub ghost gone_room: { ROWS_MAX ≤ vec_capacity gone },
}

impl Matching {
    /// Room for 65,536 points.
    pub(crate) fn new(alloc: Global) -> Result<Matching, Memory> {
        let taken = Vec::with_capacity(alloc, 65_536)?;
        let gone = Vec::with_capacity(alloc, 65_536)?;
        Ok(Matching { taken, gone })
    }

    /// Matches held points with new ones by a walk along both side by side. It takes no memory.
    pub(crate) fn run(&mut self, order: &[u32], keys: &[u32], new: &[KeepPoint])
        requires each { length keys.now ≡ length order.now }
        requires few { length order.now ≤ ROWS_MAX }
        requires few_new { length new.now ≤ ROWS_MAX }
        ensures each { length self.new.taken.items ≡ length new.now }
        ensures shared { IsPermutation order.now (rows_in self.new.taken.items ++ self.new.gone.items) }
    {
        self.taken.clear();
        self.gone.clear();
        for place in 0..order.len() {
            let key = keys[place];
            self.pass_below(new, key);
            self.pass(new, order[place], key);
        }
        self.pass_rest(new);
    }

    // No held point has the key of a new one that is below this one.
    #[tactic(auto, using(crate::proofs::Sharing::none_more))]
    fn pass_below(&mut self, new: &[KeepPoint], key: u32)
        requires few { length new.now ≤ ROWS_MAX }
        requires each { length self.old.taken.items ≤ length new.now }
        ensures each { length self.new.taken.items ≤ length new.now }
        ensures rows { rows_in self.new.taken.items ≡ rows_in self.old.taken.items }
        ensures gone { self.new.gone.items ≡ self.old.gone.items }
    {
        'below: while self.is_next_below(new, key) {
            self.taken.push_reserved(None);
        }
    }

    // Whether there is one more new point, and its key is below this one.
    fn is_next_below(&self, new: &[KeepPoint], key: u32) -> bool
        ensures { OnTrue result (length self.now.taken.items < length new.now) }
    {
        let next = self.taken.len();
        next < new.len() && new[next].key < key
    }

    // Whether there is one more new point, and it has this key.
    fn is_next(&self, new: &[KeepPoint], key: u32) -> bool
        ensures { OnTrue result (length self.now.taken.items < length new.now) }
    {
        let next = self.taken.len();
        next < new.len() && new[next].key == key
    }

    // The row is taken by the next new point, if that has its key, and gone otherwise.
    fn pass(&mut self, new: &[KeepPoint], row: u32, key: u32)
        requires few { length new.now ≤ ROWS_MAX }
        requires each { length self.old.taken.items ≤ length new.now }
        requires room { length self.old.gone.items < ROWS_MAX }
        ensures each { length self.new.taken.items ≤ length new.now }
        ensures shared { IsPermutation (row ∷ (rows_in self.old.taken.items ++ self.old.gone.items))
            (rows_in self.new.taken.items ++ self.new.gone.items) }
    {
        if self.is_next(new, key) {
            self.taken.push_reserved(Some(row));
        } else {
            self.gone.push_reserved(row);
        }
    }

    // No held point has the key of the new points that are left.
    #[tactic(auto, using(crate::proofs::Sharing::none_more))]
    fn pass_rest(&mut self, new: &[KeepPoint])
        requires few { length new.now ≤ ROWS_MAX }
        requires each { length self.old.taken.items ≤ length new.now }
        ensures each { length self.new.taken.items ≡ length new.now }
        ensures rows { rows_in self.new.taken.items ≡ rows_in self.old.taken.items }
        ensures gone { self.new.gone.items ≡ self.old.gone.items }
    {
        'rest: while self.taken.len() < new.len() {
            self.taken.push_reserved(None);
        }
    }
}
