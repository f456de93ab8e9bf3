//! The tree of a script.
ghost use Rattle.std.specs.Prelude.{◌≡◌, true};
ghost use Rattle.sgl_typed.specs.WellFormed.{is_well_formed};

use crate::schema::Schema;
use sgl_values::{BinOp, Boxed, CmpOp, FoldKind, List, Num, Place, Text};
use std::alloc::Global;

/// The key of a row, or a const attribute by its number.
#[derive(Clone, Copy, Debug, PartialEq, Eq)]
pub enum Attr {
    Key,
    Const(u32),
}

/// Whether an expression is a number or a truth.
#[derive(Clone, Copy, Debug, PartialEq, Eq)]
pub enum Kind {
    Numeric,
    Logical,
}

/// An expression, with its names resolved.
#[cycle(expr)]
#[derive(Debug, Drop)]
pub enum TExpr {
    Number(Num),
    Truth(bool),
    /// A local name. In `main` and routines each `let` and each parameter has a slot of its own; in aggregates and
    /// actions slot i is parameter i, counted from 0 behind the unit.
    Slot(u32),
    /// An attribute of the acting unit; in `post`, of the row itself.
    Unit(Attr),
    /// An attribute of the row that an action writes to. It stands in amounts alone.
    Target(Attr),
    /// An effect attribute by its number, with all amounts of the tick. It stands in `post` alone.
    Combined(u32),
    /// The random number of the unit with this index.
    Random(u16),
    Agg(AggUse),
    Neg(Boxed<TExpr>),
    Not(Boxed<TExpr>),
    /// An operation, at the place of its operator.
    Binary {
        op: BinOp,
        left: Boxed<TExpr>,
        right: Boxed<TExpr>,
        place: Place,
    },
}

/// A call of an aggregate by its number, with the arguments behind the unit, at the place of the name called. It stands
/// in `main` and routines alone.
#[cycle(expr)]
#[derive(Debug, Drop)]
pub struct AggUse {
    pub agg: u32,
    pub args: List<TExpr>,
    pub place: Place,
}

/// A test of a scanned row.
#[derive(Debug, Drop)]
pub enum TTest {
    /// Its attribute, compared with the value of the right side.
    Compare { attr: Attr, op: CmpOp, right: TExpr },
    /// Whether its point by two attributes lies in the circle of this radius round that of the acting unit.
    Within { x: Attr, y: Attr, radius: TExpr },
}

/// An aggregate: a fold over the rows that pass all tests, at the place of the word of the fold. `params` is the number
/// of parameters behind the unit, at most 16. `attr` of a count is `Key`, `second` of a fold that is not `Nearest` is
/// `Key`, and `otherwise` without `else` is 0; none of these is read.
#[derive(Debug, Drop)]
pub struct TAgg {
    pub name: Text,
    pub params: u32,
    pub kind: FoldKind,
    pub place: Place,
    pub attr: Attr,
    pub second: Attr,
    pub tests: List<TTest>,
    pub otherwise: Num,
}

/// An amount for an effect attribute of the row that passes. Where a priority is written, `by` has the place of the word
/// `by` and that priority.
#[derive(Debug, Drop)]
pub struct TWrite {
    pub effect: u32,
    pub amount: TExpr,
    pub by: Option<(Place, TExpr)>,
}

/// A clause of an action: its writes go to each row that passes all tests.
#[derive(Debug, Drop)]
pub struct TOn {
    pub tests: List<TTest>,
    pub writes: List<TWrite>,
}

/// An action: one or more clauses. `params` is the number of parameters behind the unit, at most 16.
#[derive(Debug, Drop)]
pub struct TAction {
    pub name: Text,
    pub params: u32,
    pub ons: List<TOn>,
}

/// A statement of `main` or of a routine.
#[derive(Debug, Drop)]
pub enum TStmt {
    /// Sets a slot, at the place of the value.
    Let {
        slot: u32,
        value: TExpr,
        place: Place,
    },
    /// Chooses a block, at the place of the condition. `no` is empty where there is no `else`.
    If {
        cond: TExpr,
        place: Place,
        yes: List<TStmt>,
        no: List<TStmt>,
    },
    /// Performs an action by its number, at the place of the word `perform`.
    Act {
        action: u32,
        args: List<TExpr>,
        place: Place,
    },
    /// Performs a routine by its number. `places` has the place of each argument, which the `let` that it is written out
    /// to takes over.
    Call {
        routine: u32,
        args: List<TExpr>,
        places: List<Place>,
    },
}

/// A routine: the slots of its parameters behind the unit, at most 16, and its statements.
#[derive(Debug, Drop)]
pub struct TRoutine {
    pub params: List<u32>,
    pub body: List<TStmt>,
}

/// An assignment of `post` to a const attribute.
#[derive(Debug, Drop)]
pub struct TRule {
    pub attr: u32,
    pub value: TExpr,
}

/// What stands behind `spawn when`: the condition, and the assignments to the const attributes of the child.
#[derive(Debug, Drop)]
pub struct TSpawn {
    pub cond: TExpr,
    pub rules: List<TRule>,
}

/// A script with its names resolved. `slots` is the number of slots of `main` and all routines; `spawn` is what stands
/// behind `spawn when`, and `removal` what stands behind `remove when`.
///
/// The type keeps that numbers are in range and kinds fit, that slots are read only where they are set, that uses have
/// as many arguments as there are parameters, that each form of expression stands only where it may, and the limits on
/// attributes, aggregates, clauses and parameters.
#[derive(Debug, Drop)]
pub struct TScript {
    pub schema: Schema,
    pub aggs: List<TAgg>,
    pub actions: List<TAction>,
    pub routines: List<TRoutine>,
    pub main: List<TStmt>,
    pub slots: u32,
    pub rules: List<TRule>,
    pub spawn: Option<TSpawn>,
    pub removal: Option<TExpr>,
    pub ghost well_formed: { is_well_formed schema aggs actions routines main slots rules spawn removal ≡ true },
}

impl TScript {
    ghost use Rattle.std.specs.Prelude.{[], None};

    /// A script without attributes in which units do nothing. It takes no memory.
    #[tactic(auto, unfolding(crate::specs::WellFormed::is_well_formed))]
    pub fn idle(alloc: Global) -> TScript
        ensures consts { result.schema.consts ≡ [] }
        ensures effects { result.schema.effects ≡ [] }
        ensures aggs { result.aggs ≡ [] }
        ensures actions { result.actions ≡ [] }
        ensures routines { result.routines ≡ [] }
        ensures main { result.main ≡ [] }
        ensures slots { result.slots ≡ 0 }
        ensures rules { result.rules ≡ [] }
        ensures spawn { result.spawn ≡ None }
        ensures removal { result.removal ≡ None }
    {
        TScript {
            schema: Schema {
                consts: List::new(alloc),
                effects: List::new(alloc),
            },
            aggs: List::new(alloc),
            actions: List::new(alloc),
            routines: List::new(alloc),
            main: List::new(alloc),
            slots: 0,
            rules: List::new(alloc),
            spawn: None,
            removal: None,
        }
    }
}
