//! Whole numbers from -10^12 to 10^12, and the arithmetic of the language on them.
ghost use Rattle.std.specs.Prelude.{◌≡◌, ℤ, pos, negsuc, ◌≤ℤ◌, ◌+ℤ◌, ◌-ℤ◌, ◌*ℤ◌, neg_ℤ, unsigned_abs, ◌≤◌, Result, Option, IfErr};
ghost use Rattle.sgl_values.specs.declared.fault.ArithFault.TheVariants.{ZeroDivisor};
ghost use Rattle.sgl_values.specs.Values.{sum, difference, product, quotient, remainder, bounded as bounded_number, number_of};

use crate::fault::ArithFault;
use std::marker::Model;

/// The greatest value of the language, 10^12; the least is its negative.
pub const VALUE_MAX: i64 = 1_000_000_000_000;

/// A whole number from -10^12 to 10^12. The type keeps the range; contracts see the number itself.
#[derive(Clone, Copy, Debug, PartialEq, Eq, PartialOrd, Ord)]
pub struct Num {
    value: i64,
}

impl Model for Num {
    ghost use Rattle.std.specs.Prelude.{ℤ, IsTrue};
    ghost use Rattle.sgl_values.specs.Range.{in_range};

    ghost Value = { ℤ };

    ghost view = { λ n. n.value };

    ghost invariant = { λ n. IsTrue (in_range n.value) };

    ghost inverse = { λ z. record { value = z } };
}

impl Num {
    /// The number with this value; `None` exactly outside the range.
    pub fn new(value: i64) -> Option<Num>
        ensures { result ≡ number_of value }
    {
        if value >= -VALUE_MAX && value <= VALUE_MAX {
            Some(Num { value })
        } else {
            None
        }
    }

    /// The number 0.
    pub fn zero() -> Num
        ensures { result ≡ pos 0 }
    {
        Num { value: 0 }
    }

    /// A whole number of 32 bits, which is always in the range.
    pub fn whole(value: u32) -> Num
        ensures { result ≡ pos value }
    {
        Num {
            value: i64::from(value),
        }
    }

    /// The value, from -10^12 to 10^12.
    pub fn get(self) -> i64
        ensures value { result ≡ self }
        ensures low { negsuc 999999999999 ≤ℤ result }
        ensures high { result ≤ℤ pos 1000000000000 }
    {
        self.value
    }

    /// The negative, which is in the range too.
    pub fn negated(self) -> Num
        ensures { result ≡ neg_ℤ self }
    {
        Num { value: -self.value }
    }
}

/// The exact sum; `Overflow` exactly where it is outside the range.
pub fn add(a: Num, b: Num) -> Result<Num, ArithFault>
    ensures { result ≡ sum a b }
{
    bounded(a.value + b.value)
}

/// The exact difference; `Overflow` exactly where it is outside the range.
pub fn sub(a: Num, b: Num) -> Result<Num, ArithFault>
    ensures { result ≡ difference a b }
{
    bounded(a.value - b.value)
}

/// The exact product; `Overflow` exactly where it is outside the range.
pub fn mul(a: Num, b: Num) -> Result<Num, ArithFault>
    ensures { result ≡ product a b }
{
    match a.value.checked_mul(b.value) {
        Some(value) => bounded(value),
        None => Err(ArithFault::Overflow),
    }
}

/// The quotient, rounded toward zero; `ZeroDivisor` exactly where the divisor is 0, and never `Overflow`.
pub fn div(a: Num, b: Num) -> Result<Num, ArithFault>
    ensures value { result ≡ quotient a b }
    ensures no_overflow { IfErr result (λ fault. fault ≡ ZeroDivisor) }
{
    if b.value == 0 {
        Err(ArithFault::ZeroDivisor)
    } else {
        bounded(a.value / b.value)
    }
}

/// What the quotient leaves, which has the sign of the left side; `ZeroDivisor` exactly where the divisor is 0, and never
/// `Overflow`.
pub fn rem(a: Num, b: Num) -> Result<Num, ArithFault>
    ensures value { result ≡ remainder a b }
    ensures no_overflow { IfErr result (λ fault. fault ≡ ZeroDivisor) }
{
    if b.value == 0 {
        Err(ArithFault::ZeroDivisor)
    } else {
        bounded(a.value % b.value)
    }
}

/// The number with this value; `Overflow` exactly outside the range.
pub fn bounded(value: i64) -> Result<Num, ArithFault>
    ensures { result ≡ bounded_number value }
{
    Num::new(value).ok_or(ArithFault::Overflow)
}
