//! The places at which ranks stand, and points as they enter there.
ghost use Rattle.std.specs.Prelude.{◌≡◌, ◌<◌, ◌≤◌, ℕ, length, map, All, IfOk};
ghost use Rattle.extreme_sweep.specs.Laying.{entrant_of, AreNumbered, IsInverse};

use sgl_values::{Memory, ROWS_MAX};
use std::alloc::Global;

/// A point as it enters a tree: at its place, by its rank, and with its group.
#[derive(Clone, Copy, Debug)]
pub(crate) struct Entrant {
    pub(crate) place: u32,
    pub(crate) rank: u32,
    pub(crate) group: i64,
}

/// The place of each rank, where no rank stands twice.
pub(crate) fn places_by_rank(alloc: Global, ranks: &[u32]) -> Result<Vec<u32>, Memory>
    requires few { length ranks.now ≤ ROWS_MAX }
    requires inside { All (λ rank. rank < length ranks.now) ranks.now }
    ensures length { IfOk result (λ places. length places.items ≡ length ranks.now) }
    ensures inverse { IfOk result (λ places. (number : ℕ → ℕ) → AreNumbered number ranks.now → IsInverse places.items ranks.now) }
{
    let mut places = vec![in alloc; 0; ranks.len()]?;
    for place in 0..ranks.len() {
        places[ranks[place] as usize] = place as u32;
    }
    Ok(places)
}

/// The points with these ranks as they enter, where the place and the group of each rank are given.
pub(crate) fn entrants_of(
    alloc: Global,
    ranks: &[u32],
    places: &[u32],
    groups: &[i64],
) -> Result<Vec<Entrant>, Memory>
    requires places { All (λ rank. rank < length places.now) ranks.now }
    requires groups { All (λ rank. rank < length groups.now) ranks.now }
    ensures { IfOk result (λ entrants. entrants.items ≡ map (entrant_of places.now groups.now) ranks.now) }
{
    let mut entrants = Vec::with_capacity(alloc, ranks.len())?;
    for rank in ranks {
        entrants.push(Entrant {
            place: places[*rank as usize],
            rank: *rank,
            group: groups[*rank as usize],
        })?;
    }
    Ok(entrants)
}
