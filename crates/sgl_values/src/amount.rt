//! What an effect gives: a value with its priority, at most 1,000,000.
ghost use Rattle.std.specs.Prelude.{◌≡◌, ◌≤◌, true};
ghost use Rattle.sgl_values.specs.Amounts.{amount_of, is_amount, plain_amount};

use crate::number::Num;
use std::marker::Model;

/// The greatest priority of an amount; the least is 0.
pub const PRIORITY_MAX: u32 = 1_000_000;

/// What an effect gives: a value, and the priority by which it stands against the other amounts of a `Top` attribute. The
/// type keeps that the priority is at most 1,000,000; contracts see both numbers.
#[derive(Clone, Copy, Debug, PartialEq, Eq)]
pub struct Amount {
    value: Num,
    priority: u32,
}

impl Model for Amount {
    ghost use Rattle.std.specs.Prelude.{IsTrue};
    ghost use Rattle.sgl_values.specs.Amounts.{Amount, is_amount};

    ghost Value = { Amount };

    ghost view = { λ it. record { value = it.value; priority = it.priority } };

    ghost invariant = { λ it. IsTrue (is_amount record { value = it.value; priority = it.priority }) };

    ghost inverse = { λ it. record { value = it.value; priority = it.priority } };
}

impl Amount {
    /// An amount of this value and priority; `None` exactly where the priority is above 1,000,000.
    pub fn new(value: Num, priority: u32) -> Option<Amount>
        ensures { result ≡ amount_of value priority }
    {
        if priority <= PRIORITY_MAX {
            Some(Amount { value, priority })
        } else {
            None
        }
    }

    /// An amount of this value, with the priority 0.
    pub fn plain(value: Num) -> Amount
        ensures { result ≡ plain_amount value }
    {
        Amount { value, priority: 0 }
    }

    /// The value.
    pub fn value(self) -> Num
        ensures value { result ≡ self.value }
        ensures amount { is_amount self ≡ true }
    {
        self.value
    }

    /// The priority, at most 1,000,000.
    pub fn priority(self) -> u32
        ensures value { result ≡ self.priority }
        ensures high { result ≤ PRIORITY_MAX }
    {
        self.priority
    }
}
