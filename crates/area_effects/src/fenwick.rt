//! Sums of numbers at places.
ghost use Rattle.std.specs.Prelude.{◌≡◌, ℕ, ℤ, pos, ◌+◌, ◌≤◌, ◌<◌, length, replicate, vec_capacity, IfOk};
ghost use Rattle.area_effects.specs.Fenwick.{StandsFor, IsSmall, IsWithin, plus_at, plus_between};

use sgl_values::{Memory, ROWS_MAX};
use std::alloc::Global;

/// Numbers at places, and their sums (Fenwick, A new data structure for cumulative frequency
/// tables, 1994). Node i, from 1 on, keeps the sum at the places from i without its lowest binary 1
/// to before i; node 0 is not used.
#[derive(Debug, Drop)]
pub(crate) struct Fenwick {
    pub(crate) nodes: Vec<i64>,
}

impl Fenwick {
    /// A tree without places, with room for so many. `Memory` is its only refusal.
    pub(crate) fn with_room(alloc: Global, places: usize) -> Result<Fenwick, Memory>
        requires { places ≤ ROWS_MAX }
        ensures { IfOk result (λ tree. places + 1 ≤ vec_capacity tree.nodes) }
    {
        let nodes = Vec::with_capacity(alloc, places + 1)?;
        Ok(Fenwick { nodes })
    }

    /// Puts 0 at each of so many places, in place of what there was. It takes no memory.
    pub(crate) fn clear(&mut self, places: usize)
        requires few { places ≤ ROWS_MAX }
        requires room { places + 1 ≤ vec_capacity self.old.nodes }
        ensures length { length self.new.nodes.items ≡ places + 1 }
        ensures sums { StandsFor (λ end. pos 0) self.new.nodes.items }
        ensures room { vec_capacity self.old.nodes ≤ vec_capacity self.new.nodes }
    {
        self.nodes.clear();
        // It is not refused, as there is room.
        let _ = self.nodes.resize(places + 1, 0);
    }

    /// Adds an amount at a place, and takes it away at another one that is not before it.
    pub(crate) fn add_between(&mut self, low: u32, high: u32, amount: i64)
        requires few { length self.old.nodes.items ≤ 65537 }
        requires small { IsSmall 200000000000000000 self.old.nodes.items }
        requires amount { IsWithin 1000000000000 amount }
        requires order { low ≤ high }
        ensures length { length self.new.nodes.items ≡ length self.old.nodes.items }
        ensures sums { (before : ℕ → ℤ) → StandsFor before self.old.nodes.items → StandsFor (plus_between low high amount before) self.new.nodes.items }
        ensures room { vec_capacity self.new.nodes ≡ vec_capacity self.old.nodes }
    {
        self.add(low, amount);
        self.add(high, -amount);
    }

    /// The sum at the places before this one.
    pub(crate) fn sum_before(&self, end: u32) -> i64
        requires inside { end < length self.now.nodes.items }
        requires small { IsSmall 1000000000000000000 self.now.nodes.items }
        ensures { (before : ℕ → ℤ) → StandsFor before self.now.nodes.items → result ≡ before end }
    {
        let mut sum = 0;
        let mut at = end as usize;
        while at > 0 {
            sum += self.nodes[at];
            at &= at - 1;
        }
        sum
    }

    // Adds an amount at a place.
    fn add(&mut self, place: u32, amount: i64)
        requires few { length self.old.nodes.items ≤ 65537 }
        requires small { IsSmall 1000000000000000000 self.old.nodes.items }
        requires amount { IsWithin 1000000000000 amount }
        ensures length { length self.new.nodes.items ≡ length self.old.nodes.items }
        ensures sums { (before : ℕ → ℤ) → StandsFor before self.old.nodes.items → StandsFor (plus_at place amount before) self.new.nodes.items }
        ensures room { vec_capacity self.new.nodes ≡ vec_capacity self.old.nodes }
    {
        let mut at = place as usize + 1;
        while at < self.nodes.len() {
            self.nodes[at] += amount;
            at += at - (at & (at - 1));
        }
    }
}
