//! A script and what it declares: attributes, aggregates, actions, routines, `main` and `post`.
use crate::expression::{Expr, Name};
use crate::statement::Stmt;
use sgl_values::{CmpOp, FoldKind, List, Place, Tag};

/// A whole script: its items in the order of the text.
#[derive(Clone, Debug, Drop)]
pub struct Script {
    pub items: List<Item>,
    /// The place just behind the last byte of the text.
    pub end: Place,
}

/// What a script declares.
#[derive(Clone, Debug, Drop)]
pub enum Item {
    /// An attribute of the units. Without `tag` and `init` it is a const attribute, which `post`
    /// carries over; with them it is an effect attribute, which starts at `init` in each tick and
    /// combines its amounts by `tag`.
    Attr {
        name: Name,
        tag: Option<Tag>,
        init: Option<Literal>,
    },
    /// An aggregate: a fold over the rows that pass all tests. The first of `params` is the unit.
    /// `otherwise` is what stands behind `else`, with the place of that word.
    Aggregate {
        name: Name,
        params: List<Name>,
        fold: Fold,
        tests: List<Test>,
        otherwise: Option<(Place, Literal)>,
    },
    /// An action: writes to the rows that pass the tests of its clauses. The first of `params` is
    /// the unit.
    Action {
        name: Name,
        params: List<Name>,
        ons: List<OnClause>,
    },
    /// A routine: statements under a name. The first of `params` is the unit.
    Routine {
        name: Name,
        params: List<Name>,
        body: List<Stmt>,
    },
    /// What each unit does in a tick, at the place of the word `main`.
    Main {
        place: Place,
        unit: Name,
        body: List<Stmt>,
    },
    /// How each row changes at the end of a tick, when it has a child, and when it is removed, at
    /// the place of the word `post`.
    Post {
        place: Place,
        rules: List<Rule>,
        spawn: Option<Spawn>,
        removal: Option<Expr>,
    },
}

/// A number with its sign, at the place of the number and not of the sign.
#[derive(Clone, Copy, Debug, PartialEq, Eq)]
pub struct Literal {
    pub negative: bool,
    /// The number without its sign. It may be above the greatest value of the language: the type
    /// rules tell that.
    pub value: u64,
    pub place: Place,
}

/// What an aggregate makes of the rows that pass, at the place of its word.
#[derive(Clone, Debug, Drop)]
pub struct Fold {
    pub kind: FoldKind,
    pub place: Place,
    /// The name of the scanned row.
    pub row: Name,
    /// The attribute behind the dot, or the first one in the brackets; a count has none.
    pub attr: Option<Name>,
    /// The second attribute in the brackets, which the nearest alone has.
    pub second: Option<Name>,
}

/// A test of a scanned row.
#[derive(Clone, Debug, Drop)]
pub enum Test {
    /// Its attribute, compared with a sum.
    Compare {
        row: Name,
        attr: Name,
        op: CmpOp,
        right: Expr,
    },
    /// Whether its point by two attributes lies in a circle round that of the acting unit, at the
    /// place of the word `within`.
    Within {
        place: Place,
        x: Name,
        y: Name,
        radius: Expr,
    },
}

/// A clause of an action: what it writes to each row that passes its tests, at the place of the
/// word `on`.
#[derive(Clone, Debug, Drop)]
pub struct OnClause {
    pub place: Place,
    /// The name of the scanned row.
    pub row: Name,
    pub tests: List<Test>,
    pub writes: List<Write>,
}

/// An amount that an action writes to an effect attribute, and behind the word `by`, which has this
/// place, its priority.
#[derive(Clone, Debug, Drop)]
pub struct Write {
    pub attr: Name,
    pub value: Expr,
    pub by: Option<(Place, Expr)>,
}

/// An assignment of `post`, or of the block behind `spawn when`.
#[derive(Clone, Debug, Drop)]
pub struct Rule {
    pub attr: Name,
    pub value: Expr,
}

/// What stands behind `spawn when`: the condition, and the assignments to the child.
#[derive(Clone, Debug, Drop)]
pub struct Spawn {
    pub cond: Expr,
    pub rules: List<Rule>,
}
