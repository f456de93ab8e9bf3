//! Who tells what an expression reads: a frame does, and so does whoever holds the values of a row that stands in no world.
ghost use Rattle.std.specs.Prelude.{◌≡◌, pos, slice_index_or};
ghost use Rattle.sgl_values.specs.declared.fault.Val.TheVariants.{N};
ghost use Rattle.sgl_typed.specs.Draw.{draw};
ghost use Rattle.sgl_typed.specs.Value.{attribute, Context};

use crate::attribute::attribute_of;
use crate::frame::Frame;
use sgl_typed::Attr;
use sgl_values::{Num, Val};
use tick_random::random;

/// Who tells what an expression reads in a context. What is not there reads 0.
pub trait ExprContext {
    /// Whether it can be read.
    ghost can_read: { Self → Type 0 };

    /// The context.
    ghost context: { Self → Context };

    /// An attribute of the acting unit.
    fn unit(&self, attr: Attr) -> Num
        requires { can_read self.now }
        ensures { result ≡ attribute attr (context self.now).unit };

    /// An attribute of the row that an action writes to.
    fn target(&self, attr: Attr) -> Num
        requires { can_read self.now }
        ensures { result ≡ attribute attr (context self.now).target };

    /// A slot.
    fn slot(&self, slot: u32) -> Val
        requires { can_read self.now }
        ensures { result ≡ slice_index_or (context self.now).slots slot (N (pos 0)) };

    /// A combined effect.
    fn combined(&self, effect: u32) -> Num
        requires { can_read self.now }
        ensures { result ≡ slice_index_or (context self.now).combined effect (pos 0) };

    /// The number with this index that the acting unit draws.
    fn random(&self, index: u16) -> Num
        requires { can_read self.now }
        ensures { result ≡ draw (context self.now).seed (context self.now).world.tick (context self.now).unit.key index };
}

impl ExprContext for Frame<'_> {
    ghost use Rattle.sgl_evaluate.specs.Frame.{context_of, IsFrame};

    ghost can_read = { IsFrame };

    ghost context = { context_of };

    fn unit(&self, attr: Attr) -> Num {
        attribute_of(self.tick.world, self.unit, attr)
    }

    fn target(&self, attr: Attr) -> Num {
        attribute_of(self.tick.world, self.target, attr)
    }

    fn slot(&self, slot: u32) -> Val {
        self.slots
            .get(slot as usize)
            .copied()
            .unwrap_or(Val::N(Num::zero()))
    }

    fn combined(&self, effect: u32) -> Num {
        number_or_zero(self.combined, effect)
    }

    fn random(&self, index: u16) -> Num {
        random(
            self.tick.seed,
            self.tick.world.tick(),
            self.tick.world.key(self.unit),
            index,
        )
    }
}

/// The number at a place, and 0 past the end.
pub fn number_or_zero(numbers: &[Num], at: u32) -> Num
    ensures { result ≡ slice_index_or numbers.now at (pos 0) }
{
    numbers.get(at as usize).copied().unwrap_or(Num::zero())
}
