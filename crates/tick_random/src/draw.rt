//! The number that a unit draws, from seed, tick, key and index by SplitMix64.
ghost use Rattle.std.specs.Prelude.{◌≡◌};
ghost use Rattle.sgl_typed.specs.Draw.{draw, split};

use rand_core::{Rng, SeedableRng};
use rand_xoshiro::SplitMix64;
use sgl_values::Num;

/// The number with index `i` that the unit with this key draws in this tick, from 0 to 2,147,483,647: the upper 31 bits
/// of the first word of SplitMix64 from the state `seed ^ (tick * 2^48 + key * 2^16 + i)`. Under one seed no other tick,
/// key or index has this state. It takes no memory.
///
/// SplitMix64 is the generator of Steele, Lea and Flood, "Fast Splittable Pseudorandom Number Generators", 2014.
#[tactic(auto, unfolding(sgl_typed::specs::Draw::draw))]
pub fn random(seed: u64, tick: u16, key: u32, i: u16) -> Num
    ensures { result ≡ draw seed tick key i }
{
    let place = u64::from(tick) * (1 << 48) + u64::from(key) * (1 << 16) + u64::from(i);
    Num::whole((first_word(seed ^ place) >> 33) as u32)
}

/// The first word of SplitMix64 from a state.
pub(crate) fn first_word(state: u64) -> u64
    ensures { result ≡ split state }
{
    SplitMix64::seed_from_u64(state).next_u64()
}
