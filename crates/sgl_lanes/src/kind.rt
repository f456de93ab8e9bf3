//! What lanes hold.
ghost use Rattle.std.specs.Prelude.{◌≡◌, if◌then◌else◌};
ghost use Rattle.sgl_lanes.specs.declared.kind.Lanes.TheVariants.{Unknown};
ghost use Rattle.sgl_lanes.specs.Lanes.{Holds};

use crate::operation::bit;
use sgl_values::{Num, Val};

/// What the lanes hold. Of what is unknown they say nothing.
#[derive(Clone, Copy, Debug, PartialEq, Eq)]
pub enum Lanes {
    Numbers,
    Truths,
    Unknown,
}

/// This kind where the lanes were exact.
pub(crate) fn kind_if(exact: bool, kind: Lanes) -> Lanes
    ensures { result ≡ (if exact then kind else Unknown) }
{
    if exact { kind } else { Lanes::Unknown }
}

/// What stands for a value in a lane.
pub(crate) fn standing_for(value: Val) -> (Lanes, Num)
    ensures { Holds result.0 result.1 value }
{
    match value {
        Val::N(number) => (Lanes::Numbers, number),
        Val::B(truth) => (Lanes::Truths, bit(truth)),
        Val::F(_) => (Lanes::Unknown, Num::zero()),
    }
}
