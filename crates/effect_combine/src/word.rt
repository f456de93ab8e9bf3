//! An amount as a word of 64 bits, and two words of a cell as one, for each tag.
ghost use Rattle.std.specs.Prelude.{◌≡◌};
ghost use Rattle.effect_combine.specs.Words.{start_of, merged, word_of};

use sgl_values::{Amount, Tag, VALUE_MAX};

/// In a word of a `Top` attribute a priority counts so much, which is above each value moved up: 2^41.
pub(crate) const PRIORITY_STEP: u64 = 2_199_023_255_552;

/// The word of a cell without amounts: 0 for `Sum`, the greatest word for `Min`, 0 for `Max` and `Top`.
pub fn start_word(tag: Tag) -> u64
    ensures { result ≡ start_of tag }
{
    match tag {
        Tag::Sum => 0,
        Tag::Min => u64::MAX,
        Tag::Max | Tag::Top => 0,
    }
}

/// The word of one amount: its value's two's complement for `Sum`, the value + 10^12 for `Min`, the value + 10^12 + 1 for
/// `Max`, and priority * 2^41 + value + 10^12 + 1 for `Top`. So no amount has the start word of `Min`, `Max` or `Top`.
pub fn word_of(tag: Tag, amount: Amount) -> u64
    ensures { result ≡ word_of tag amount }
{
    let value = amount.value().get();
    match tag {
        Tag::Sum => value.cast_unsigned(),
        Tag::Min => (value + VALUE_MAX) as u64,
        Tag::Max => (value + VALUE_MAX + 1) as u64,
        Tag::Top => u64::from(amount.priority()) * PRIORITY_STEP + (value + VALUE_MAX + 1) as u64,
    }
}

/// Two words of one cell as one: the sum modulo 2^64, the lesser, the greater, and the greater too for `Top`.
pub fn merge(tag: Tag, a: u64, b: u64) -> u64
    ensures { result ≡ merged tag a b }
{
    match tag {
        Tag::Sum => a.wrapping_add(b),
        Tag::Min => a.min(b),
        Tag::Max | Tag::Top => a.max(b),
    }
}
