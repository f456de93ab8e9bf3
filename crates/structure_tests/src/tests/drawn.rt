//! Numbers that are drawn, for points and boxes.

/// The next number of a generator, from 0 to before `below`.
pub fn next(seed: &mut u64, below: u32) -> u32 {
    *seed = seed.wrapping_mul(6_364_136_223_846_793_005).wrapping_add(1);
    (*seed >> 40) as u32 % below.max(1)
}
