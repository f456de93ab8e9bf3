//! What a statement of one unit gives: an amount for a row, or a fault; and the order of faults.
ghost use Rattle.std.specs.Cmp.{partial_order_from_own_ties};
ghost use Rattle.std.specs.Cmp.Rules.{comparing};
ghost use Rattle.std.specs.Ordering.{nat_cmp, on, then_cmp, as_partial_cmp};
ghost use Rattle.std.proofs.Common.{rules};
ghost use Rattle.sgl_values.specs.ItemOrder.{item_fault_cmp};

use crate::amount::Amount;
use crate::fault::Fault;
use std::cmp::Ordering;

/// A fault of the unit with this key. The target is the key of the row at which an amount has the fault, and 0 where
/// the fault stands in a condition or in a test.
///
/// Faults of items are ordered by key, place and target, and then by kind, `Overflow` before `ZeroDivisor`,
/// and that before `Priority`.
#[derive(Clone, Copy, Debug, PartialEq, Eq)]
pub struct ItemFault {
    pub key: u32,
    pub fault: Fault,
    pub target: u32,
}

/// What a statement of one unit gives.
#[derive(Clone, Copy, Debug, PartialEq, Eq)]
pub enum Item {
    /// An amount for an effect attribute of a row; both are numbers from 0.
    Effect { row: u32, attr: u32, amount: Amount },
    /// A fault in place of an amount, or of what a condition or a clause would have given.
    Faulty(ItemFault),
}

impl Ord for ItemFault {
    ghost cmp = { item_fault_cmp };

    ghost total = { Prim.search (comparing, rules) depth 9 };

    ghost matches_partial_cmp = { Prim.search (comparing, rules) depth 9 };

    ghost matches_eq = { Prim.search (comparing, rules) depth 9 };

    fn cmp(&self, other: &ItemFault) -> Ordering {
        self.key
            .cmp(&other.key)
            .then(self.fault.place.cmp(&other.fault.place))
            .then(self.target.cmp(&other.target))
            .then((self.fault.kind as u8).cmp(&(other.fault.kind as u8)))
    }
}

impl PartialOrd for ItemFault {
    ghost partial_cmp = { as_partial_cmp item_fault_cmp };

    ghost laws = { partial_order_from_own_ties (Prim.search (comparing, rules) depth 9) (Prim.search (comparing, rules) depth 9) };

    fn partial_cmp(&self, other: &ItemFault) -> Option<Ordering> {
        Some(self.cmp(other))
    }
}
