//! Draws against published words of SplitMix64, and at the ends of seed, tick, key and index.

use super::*;
use crate::draw::first_word;

#[test]
fn the_first_words_of_published_generators(rt: HostRuntime) {
    assert_eq!(rt; first_word(0), 0xE220A8397B1DCDAF);
    assert_eq!(rt; first_word(1_234_567), 6_457_827_717_110_365_317);
}

#[test]
fn a_draw_is_the_upper_part_of_the_first_word(rt: HostRuntime) {
    let rows = [
        (65_536, 0, 1, 0, 1_896_895_516),
        (0, 0, 1, 0, 81_090_998),
        (0, 1, 1, 0, 1_841_166_952),
        (0, 0, 1, 1, 799_411_926),
        (42, 7, 1_000, 3, 1_788_608_313),
        (123_456_789_012_345_678, 10_000, 65_536, 65_535, 207_193_558),
        (u64::MAX, u16::MAX, u32::MAX, u16::MAX, 1_896_895_516),
    ];
    for (seed, tick, key, i, number) in rows {
        assert_eq!(rt; random(seed, tick, key, i).get(), number);
    }
}
