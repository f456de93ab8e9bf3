//! The value of an expression of `post`.
ghost use Rattle.std.specs.Prelude.{◌≡◌};
ghost use Rattle.sgl_typed.specs.Aggregate.{simple_value};
ghost use Rattle.sgl_typed.specs.Value.{attribute};
ghost use Rattle.tick_postprocess.specs.Unit.{context_of, row_of};

use crate::row::Ending;
use sgl_evaluate::{ExprContext, NoCalls, evaluate, number_at_once, number_or_zero};
use sgl_typed::{Attr, TExpr};
use sgl_values::{Num, Val};
use tick_random::random;

/// A unit in `post`, and what may be read there. Its values are the old ones for the right sides, and the new ones for
/// `spawn when`, its block and `remove when`, so they stand in no world.
#[derive(Clone, Copy)]
pub(crate) struct PostUnit<'a> {
    pub ending: &'a Ending<'a>,
    pub key: u32,
    pub values: &'a [Num],
    pub cells: &'a [Num],
}

impl ExprContext for PostUnit<'_> {
    ghost use Rattle.std.specs.Prelude.{⊤};
    ghost use Rattle.tick_postprocess.specs.Unit.{context_of};

    ghost can_read = { λ _. ⊤ };

    ghost context = { context_of };

    fn unit(&self, attr: Attr) -> Num {
        attribute_in(self, attr)
    }

    fn target(&self, attr: Attr) -> Num {
        attribute_in(self, attr)
    }

    fn slot(&self, _slot: u32) -> Val {
        Val::N(Num::zero())
    }

    fn combined(&self, effect: u32) -> Num {
        number_or_zero(self.cells, effect)
    }

    fn random(&self, index: u16) -> Num {
        let tick = self.ending.tick;
        random(tick.seed, tick.world.tick(), self.key, index)
    }
}

/// The value of an expression of `post`, in which no aggregate is called.
pub(crate) fn value_of(unit: &PostUnit, expr: &TExpr) -> Val
    ensures { result ≡ simple_value (context_of unit.now) expr.now }
{
    match number_at_once(unit, expr) {
        Some(number) => Val::N(number),
        None => evaluate(&NoCalls, unit, expr),
    }
}

fn attribute_in(unit: &PostUnit, attr: Attr) -> Num
    ensures { result ≡ attribute attr (row_of unit.now) }
{
    match attr {
        Attr::Key => Num::whole(unit.key),
        Attr::Const(attr) => number_or_zero(unit.values, attr),
    }
}
