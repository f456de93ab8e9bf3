//! Aggregates by a scan of the whole world.
ghost use Rattle.std.specs.Prelude.{◌≡◌, ◌<◌, filter, length, slice_get};
ghost use Rattle.std.specs.Option.{option_map, ForSome};
ghost use Rattle.sgl_values.specs.Least.{least_of};
ghost use Rattle.sgl_values.specs.World.{row_at};
ghost use Rattle.sgl_typed.specs.Aggregate.{aggregate as aggregate_of, call_of, found_or as value_found, made};
ghost use Rattle.sgl_evaluate.specs.Frame.{context_of, IsFrame};
ghost use Rattle.sgl_evaluate.specs.Rank.{ranked};
ghost use Rattle.sgl_evaluate.specs.Rights.{AreRights, passes_each};

use crate::attribute::attribute_of;
use crate::calls::AggregateCalls;
use crate::extreme::{Rank, first_ranked};
use crate::fold::{count, sum};
use crate::frame::Frame;
use crate::operation::placed;
use crate::rights::Rights;
use sgl_typed::{Attr, TAgg};
use sgl_values::{FoldKind, Num, Val, bounded};

/// The value of an aggregate for the unit of the frame, with the values of its arguments: the first fault of the right
/// sides of its tests, or what the fold makes of the rows of the whole world that pass, the unit itself included where it
/// passes. It takes no memory, and goes once over the world.
pub fn aggregate(agg: &TAgg, frame: &Frame, args: &[Val]) -> Val
    requires { IsFrame frame.now }
    ensures { result ≡ aggregate_of agg.now (context_of frame.now) args.now }
{
    scan(agg, &frame.with_slots(args))
}

// The value of an aggregate, whose arguments are the slots of the frame.
fn scan(agg: &TAgg, frame: &Frame) -> Val
    requires { IsFrame frame.now }
    ensures { result ≡ aggregate_of agg.now (context_of frame.now) frame.now.slots.now }
{
    match Rights::read(frame, agg.tests.as_slice()) {
        Err(fault) => Val::F(fault),
        Ok(rights) => fold_rows(agg, frame, &rights),
    }
}

/// What an aggregate makes of the rows of the whole world that pass. It takes no memory, and goes once over the world.
pub fn fold_rows(agg: &TAgg, frame: &Frame, rights: &Rights) -> Val
    requires frame { IsFrame frame.now }
    requires rights { AreRights (context_of frame.now) agg.now.tests rights.now }
    ensures { result ≡ made agg.now.kind agg.now (context_of frame.now).unit (filter (passes_each (context_of frame.now) agg.now.tests) frame.now.tick.world.now.world.rows) }
{
    let tests = agg.tests.as_slice();
    let attr = agg.attr;
    match agg.kind {
        FoldKind::Count => Val::N(Num::whole(count(frame, tests, rights))),
        FoldKind::Sum => placed(agg.place, bounded(sum(frame, tests, rights, attr))),
        FoldKind::Min => first_or(frame, agg, rights, Rank::Rising(attr), attr),
        FoldKind::Max => first_or(frame, agg, rights, Rank::Falling(attr), attr),
        FoldKind::Lowest => first_or(frame, agg, rights, Rank::Rising(attr), Attr::Key),
        FoldKind::Highest => first_or(frame, agg, rights, Rank::Falling(attr), Attr::Key),
        FoldKind::Nearest => first_or(frame, agg, rights, Rank::Near(attr, agg.second), Attr::Key),
    }
}

// An attribute of the first row by rank among those that pass, or what stands behind `else`.
fn first_or(frame: &Frame, agg: &TAgg, rights: &Rights, rank: Rank, attr: Attr) -> Val
    requires frame { IsFrame frame.now }
    requires rights { AreRights (context_of frame.now) agg.now.tests rights.now }
    ensures { result ≡ value_found attr agg.now.otherwise (least_of (ranked rank (context_of frame.now).unit) (filter (passes_each (context_of frame.now) agg.now.tests) frame.now.tick.world.now.world.rows)) }
{
    found_or(
        frame,
        attr,
        agg,
        first_ranked(frame, agg.tests.as_slice(), rights, rank),
    )
}

// An attribute of the row that was found, or what stands behind `else`.
fn found_or(frame: &Frame, attr: Attr, agg: &TAgg, row: Option<u32>) -> Val
    requires { ForSome row (λ row. row < length frame.now.tick.world.now.world.rows) }
    ensures { result ≡ value_found attr agg.now.otherwise (option_map (row_at frame.now.tick.world.now.world) row) }
{
    match row {
        None => Val::N(agg.otherwise),
        Some(row) => Val::N(attribute_of(frame.tick.world, row, attr)),
    }
}

impl AggregateCalls for Frame<'_> {
    ghost can_call = { IsFrame };

    ghost gives = { λ f agg args. call_of (context_of f) (slice_get f.tick.script.now.aggs agg) args };

    fn call(&self, agg: u32, args: &[Val]) -> Val {
        match self.tick.script.aggs.get(agg as usize) {
            None => Val::N(Num::zero()),
            Some(agg) => aggregate(agg, self, args),
        }
    }
}
