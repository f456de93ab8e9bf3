//! What goes wrong in an expression and where, what values are, and the tags of effect attributes.
use crate::number::Num;
use crate::place::Place;

/// What goes wrong in an expression.
#[derive(Clone, Copy, Debug, PartialEq, Eq, PartialOrd, Ord)]
pub enum ArithFault {
    /// The exact result is outside the range of values.
    Overflow,
    /// The right side of a division is 0.
    ZeroDivisor,
    /// The priority of an amount is below 0 or above 1,000,000. No operation on numbers answers it.
    Priority,
}

/// A fault, at the place of the operator or of the word `by` that it comes from.
#[derive(Clone, Copy, Debug, PartialEq, Eq)]
pub struct Fault {
    pub kind: ArithFault,
    pub place: Place,
}

/// The value of an expression: a number, a truth, or the fault that stands in its place.
#[derive(Clone, Copy, Debug, PartialEq, Eq)]
pub enum Val {
    N(Num),
    B(bool),
    F(Fault),
}

/// How the amounts for an effect attribute are combined with its starting value.
#[derive(Clone, Copy, Debug, PartialEq, Eq)]
pub enum Tag {
    /// The exact sum.
    Sum,
    /// The least.
    Min,
    /// The greatest.
    Max,
    /// The value of the greatest amount by priority and then by value. The starting value holds only where there is none.
    Top,
}
