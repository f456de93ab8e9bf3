//! Decimal numbers in fields.
ghost use Rattle.std.specs.Prelude.{◌≡◌, ◌≤◌, pos, ℤ, Option, option_map, neg_ℤ};
ghost use Rattle.unit_csv.specs.declared.numbers.Number.TheVariants.{Value};
ghost use Rattle.unit_csv.specs.Numbers.{kept, number_of, unsigned_of};

use sgl_values::{Num, VALUE_MAX, are_digits, digits_within};

/// What a field holds.
#[derive(Clone, Copy, Debug, PartialEq, Eq)]
pub enum Number {
    /// No number.
    Malformed,
    /// A number outside the range of values.
    OutOfRange,
    Value(Num),
}

/// The number of a field: an optional `-` and one or more digits, of which there may be any number.
pub fn number_of(field: &[u8]) -> Number
    ensures { result ≡ kept (number_of field.now) }
{
    if !field.is_empty() && field[0] == b'-' {
        negated(magnitude_of(&field[1..]))
    } else {
        magnitude_of(field)
    }
}

fn negated(number: Number) -> Number
    ensures { (o : Option ℤ) → number ≡ kept o → result ≡ kept (option_map neg_ℤ o) }
{
    match number {
        Number::Value(magnitude) => Number::Value(magnitude.negated()),
        Number::Malformed => Number::Malformed,
        Number::OutOfRange => Number::OutOfRange,
    }
}

fn magnitude_of(digits: &[u8]) -> Number
    ensures { result ≡ kept (unsigned_of digits.now) }
{
    if !are_digits(digits) {
        return Number::Malformed;
    }
    match digits_within(digits, VALUE_MAX as u64) {
        Some(magnitude) => value_of(magnitude),
        None => Number::OutOfRange,
    }
}

fn value_of(magnitude: u64) -> Number
    requires { magnitude ≤ 1000000000000 }
    ensures { result ≡ Value (pos magnitude) }
{
    match Num::new(magnitude as i64) {
        Some(value) => Number::Value(value),
        None => Number::OutOfRange,
    }
}
