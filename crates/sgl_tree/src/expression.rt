//! Names and expressions as they are written, each with its place.
use sgl_values::{BinOp, Boxed, List, Place, Text};

/// A name of a script, at the place of its first byte.
#[derive(Clone, Debug, Drop)]
pub struct Name {
    /// The bytes of the name, which are letters and digits of ASCII and underscores.
    pub text: Text,
    /// Where the name begins.
    pub place: Place,
}

/// An expression. Operators of one strength group to the left, and brackets leave no trace but
/// the grouping.
#[derive(Clone, Debug, Drop)]
pub enum Expr {
    /// A number as it is written, at its own place. It may be above the greatest value of the
    /// language: the type rules tell that.
    Number {
        value: u64,
        place: Place,
    },
    /// `true` or `false`, at the place of the word.
    Truth {
        value: bool,
        place: Place,
    },
    /// A bare name: a parameter, a name given by `let`, or in `post` an attribute.
    Local {
        name: Name,
    },
    /// The attribute `attr` of the row that goes by the name `of`, as in `u.x`.
    Field {
        of: Name,
        attr: Name,
    },
    /// A call of the aggregate `name` for `unit`, with the arguments behind the unit. Its place is
    /// that of `name`.
    Call {
        name: Name,
        unit: Name,
        args: List<Expr>,
    },
    /// A random number of the unit, at the place of the word. `index` is the number in the
    /// brackets, at `index_place`.
    Random {
        place: Place,
        index: u64,
        index_place: Place,
    },
    /// The negative of `inner`, at the place of the sign.
    Neg {
        inner: Boxed<Expr>,
        place: Place,
    },
    /// The contrary of `inner`, at the place of the word `not`.
    Not {
        inner: Boxed<Expr>,
        place: Place,
    },
    /// An operation on two expressions, at the place of its operator.
    Binary {
        op: BinOp,
        left: Boxed<Expr>,
        right: Boxed<Expr>,
        place: Place,
    },
}
