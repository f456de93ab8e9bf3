//! A side of an operation on lanes: a number in each lane, or one number in all of them.
ghost use Rattle.std.specs.Prelude.{◌≡◌, ◌<◌, ℕ, ℤ, pos, true, IfSome};
ghost use Rattle.sgl_lanes.specs.Divisors.{IsDivisor};
ghost use Rattle.sgl_lanes.specs.Factors.{IsFactor};
ghost use Rattle.sgl_lanes.specs.Lanes.{lane_of};

use crate::divisor::Divisor;
use crate::factor::Factor;
use crate::lane_set::LANES;
use sgl_values::Num;

/// A side.
pub(crate) trait Side {
    /// Its number in a lane.
    ghost at: { Self → ℕ → ℤ };

    /// Its number in a lane.
    fn number(&self, lane: usize) -> Num
        requires { lane < LANES }
        ensures { result ≡ at self.now lane };

    /// The divisor that its number is in all lanes, where it has an inverse.
    fn divisor(&self) -> Option<Divisor>
        ensures divisor { IfSome result IsDivisor }
        ensures number { IfSome result (λ divisor. (k : ℕ) → at self.now k ≡ pos divisor.number) };

    /// The factor that its number is in all lanes, where it is one.
    fn factor(&self) -> Option<Factor>
        ensures factor { IfSome result IsFactor }
        ensures number { IfSome result (λ factor. (k : ℕ) → at self.now k ≡ pos factor.number) };
}

impl Side for [Num; LANES] {
    ghost at = { lane_of };

    fn number(&self, lane: usize) -> Num {
        self[lane]
    }

    fn divisor(&self) -> Option<Divisor> {
        None
    }

    fn factor(&self) -> Option<Factor> {
        None
    }
}

/// One number in all lanes.
#[derive(Clone, Copy)]
pub(crate) struct Constant {
    pub(crate) number: Num,
}

impl Side for Constant {
    ghost at = { λ side lane. side.number };

    fn number(&self, _lane: usize) -> Num {
        self.number
    }

    fn divisor(&self) -> Option<Divisor> {
        Divisor::of(self.number)
    }

    fn factor(&self) -> Option<Factor> {
        Factor::of(self.number)
    }
}

/// A side whose numbers stand in lanes, or which is one number.
#[derive(Clone, Copy)]
pub(crate) enum Standing<'a> {
    Lanes(&'a [Num; LANES]),
    Number(Num),
}
