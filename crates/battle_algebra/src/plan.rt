//! The nodes of plans.
ghost use Rattle.std.specs.Prelude.{◌≡◌, true, IfOk, [], ◌∷◌};
ghost use Rattle.battle_algebra.specs.declared.plan.Node.TheVariants as Node;
ghost use Rattle.battle_algebra.specs.Fit.{is_plan};

use sgl_typed::{AggUse, TExpr};
use sgl_values::{List, Memory, Place};
use std::alloc::Global;

/// How an aggregate is answered.
#[derive(Clone, Copy, Debug, PartialEq, Eq)]
pub enum Way {
    /// Each row is tested.
    Scan,
    /// The one row with a key is found and tested.
    Key,
    /// A count or sum over a box: a count by a grid, a sum by a range tree, for each group of rows.
    Range,
    /// The least pair of each row's window, all rows in one sweep.
    Sweep,
    /// The nearest row, by a tree of points.
    Nearest,
    /// A count or sum over a circle, by the cells of a grid.
    Circle,
}

/// How the rows that an effect goes to are found.
#[derive(Clone, Copy, Debug, PartialEq, Eq)]
pub enum EffectWay {
    /// Each row is tested.
    Scan,
    /// The one row with a key is found and tested.
    Key,
    /// The rows of a group within an interval of one attribute are tested.
    Slab,
    /// Boxes of one amount each are added up over all rows.
    Area,
}

/// One `on` clause of an action, at the place of the word `perform`.
#[derive(Debug, Drop)]
pub struct EffectUse {
    pub action: u32,
    pub clause: u32,
    pub args: List<TExpr>,
    pub place: Place,
}

/// A node, with its children by their numbers.
#[derive(Debug, Drop)]
pub enum Node {
    Empty,
    Extend {
        slot: u32,
        value: TExpr,
        place: Place,
        then: u32,
    },
    Agg {
        slot: u32,
        call: AggUse,
        way: Way,
        then: u32,
    },
    Split {
        cond: TExpr,
        place: Place,
        yes: u32,
        no: u32,
    },
    Effect {
        act: EffectUse,
        way: EffectWay,
    },
    Both {
        left: u32,
        right: u32,
    },
}

/// Nodes in preorder; the first is the root.
#[derive(Debug, Drop)]
pub struct Plan {
    pub nodes: List<Node>,
    pub slots: u32,
    pub ghost shaped: { is_plan nodes slots ≡ true },
}

/// A plan that gives nothing.
#[tactic(auto, unfolding(crate::specs::Fit::is_plan))]
pub fn empty_plan(alloc: Global) -> Result<Plan, Memory>
    ensures { IfOk result (λ plan. plan.nodes ≡ Node.Empty ∷ []) }
{
    let mut nodes = List::new(alloc);
    nodes.push(Node::Empty)?;
    Ok(Plan { nodes, slots: 0 })
}
