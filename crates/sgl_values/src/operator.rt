//! The operators of expressions, and the kinds of aggregates.

/// A comparison of two numbers: `=`, `<>`, `<`, `<=`, `>` and `>=`, in this order.
#[derive(Clone, Copy, Debug, PartialEq, Eq)]
pub enum CmpOp {
    Eq,
    Ne,
    Lt,
    Le,
    Gt,
    Ge,
}

/// An operation on two values: `+`, `-`, `*`, `/`, `%`, a comparison, `and`, `or`.
#[derive(Clone, Copy, Debug, PartialEq, Eq)]
pub enum BinOp {
    Add,
    Sub,
    Mul,
    Div,
    Rem,
    Cmp(CmpOp),
    And,
    Or,
}

/// What an aggregate makes of the rows that pass its tests.
#[derive(Clone, Copy, Debug, PartialEq, Eq)]
pub enum FoldKind {
    /// How many rows they are.
    Count,
    /// The exact sum of an attribute.
    Sum,
    /// The least value of an attribute.
    Min,
    /// The greatest value of an attribute.
    Max,
    /// The key of the row with the least value, and of equal rows the least key.
    Lowest,
    /// The key of the row with the greatest value, and of equal rows the least key.
    Highest,
    /// The key of the row whose point by two attributes is nearest to that of the acting unit, and of rows as near the
    /// least key.
    Nearest,
}
