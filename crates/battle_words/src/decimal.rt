//! Decimal numbers in text.
ghost use Rattle.std.specs.Prelude.{◌≡◌};
ghost use Rattle.battle_words.specs.Decimal.{at_least, number_within};

use crate::DIGITS_MAX;
use sgl_values::{are_digits, digits_within};

/// The number that 1 to 20 digits write, where it is from `least` to `most`. `None` also where there is no digit, or
/// another byte among them.
pub fn number_within(digits: &[u8], least: u64, most: u64) -> Option<u64>
    ensures { result ≡ number_within least most digits.now }
{
    if digits.len() > DIGITS_MAX || !are_digits(digits) {
        return None;
    }
    let number = digits_within(digits, most)?;
    at_least(number, least)
}

fn at_least(value: u64, least: u64) -> Option<u64>
    ensures { result ≡ at_least least value }
{
    if value >= least { Some(value) } else { None }
}
