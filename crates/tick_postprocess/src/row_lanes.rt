//! The rows of a block as lanes, with their old values and with their new ones.
ghost use Rattle.std.specs.Prelude.{◌≡◌, ◌<◌, ◌≤◌, ◌+◌, ℕ, pos, length, map, slice_index_or, IfNone, IfSome};
ghost use Rattle.sgl_lanes.specs.Columns.{AreColumns};
ghost use Rattle.sgl_lanes.specs.Lanes.{lane_of};
ghost use Rattle.sgl_typed.specs.Value.{attribute};

use crate::row::Ending;
use sgl_evaluate::attribute_of;
use sgl_lanes::{LANES, LaneContexts, fill, number_at, read_rows};
use sgl_typed::Attr;
use sgl_values::{CONSTS_MAX, EFFECTS_MAX, Num, Val};
use tick_random::random;

/// The rows of a block in front of `post`, each of them a lane.
#[derive(Clone, Copy)]
pub(crate) struct RowLanes<'a> {
    pub ending: &'a Ending<'a>,
    pub first: u32,
    pub cells: &'a [[Num; LANES]; EFFECTS_MAX],
    // The attributes of the rows.
    pub columns: &'a [[Num; LANES]],
    ghost wide: { ending.now.tick.world.now.width ≤ length columns.now },
    ghost read: { AreColumns ending.now.tick.world.now first columns.now },
}

impl RowLanes<'_> {
    ghost use Rattle.tick_postprocess.specs.Blocks.{lane_context, CanRead};

    /// The row of a lane.
    pub(crate) fn row(&self, lane: u32) -> u32
        requires { self.now.first + lane < length self.now.ending.now.tick.world.now.world.rows }
        ensures { result ≡ self.now.first + lane }
    {
        let ending = self.ending;
        let _few = ending.tick.world.len();
        self.first + lane
    }

    // The column of an attribute, where it has one.
    fn column(&self, attr: Attr) -> Option<&[Num; LANES]>
        ensures { IfSome result (λ column. (lane : ℕ) → CanRead self.now lane → lane_of column.now lane ≡ attribute attr (lane_context self.now lane).unit) }
    {
        let ending = self.ending;
        match attr {
            Attr::Const(number) if number < ending.tick.world.width() => {
                self.columns.get(number as usize)
            }
            _ => None,
        }
    }

    // The cells of an effect attribute, where there is one with this number.
    fn cells_of_effect(&self, effect: u32) -> Option<&[Num; LANES]>
        ensures some { IfSome result (λ cells. (lane : ℕ) → CanRead self.now lane → lane_of cells.now lane ≡ slice_index_or (lane_context self.now lane).combined effect (pos 0)) }
        ensures none { IfNone result ((lane : ℕ) → CanRead self.now lane → slice_index_or (lane_context self.now lane).combined effect (pos 0) ≡ pos 0) }
    {
        let at = effect as usize;
        let ending = self.ending;
        if at < ending.tick.script.schema.effects.len() && at < EFFECTS_MAX {
            Some(&self.cells[at])
        } else {
            None
        }
    }
}

impl LaneContexts for RowLanes<'_> {
    ghost use Rattle.tick_postprocess.specs.Blocks.{lane_context, CanRead};

    ghost can_read = { CanRead };

    ghost context = { lane_context };

    fn unit(&self, lane: u32, attr: Attr) -> Num {
        let ending = self.ending;
        attribute_of(ending.tick.world, self.row(lane), attr)
    }

    fn units(&self, _mask: u64, attr: Attr, out: &mut [Num; LANES]) {
        let ending = self.ending;
        match self.column(attr) {
            Some(column) => *out = *column,
            None => read_rows(ending.tick.world, self.first, attr, out),
        }
    }

    fn lent_units(&self, _mask: u64, attr: Attr) -> Option<&[Num; LANES]> {
        self.column(attr)
    }

    fn target(&self, lane: u32, attr: Attr) -> Num {
        let ending = self.ending;
        attribute_of(ending.tick.world, self.row(lane), attr)
    }

    fn slot(&self, _lane: u32, _slot: u32) -> Val {
        Val::N(Num::zero())
    }

    fn combined(&self, lane: u32, effect: u32) -> Num {
        let at = effect as usize;
        let ending = self.ending;
        if at < ending.tick.script.schema.effects.len() && at < EFFECTS_MAX {
            number_at(&self.cells[at], lane)
        } else {
            Num::zero()
        }
    }

    fn effects(&self, _mask: u64, effect: u32, out: &mut [Num; LANES]) {
        match self.cells_of_effect(effect) {
            Some(cells) => *out = *cells,
            None => fill(Num::zero(), out),
        }
    }

    fn lent_effects(&self, _mask: u64, effect: u32) -> Option<&[Num; LANES]> {
        self.cells_of_effect(effect)
    }

    fn random(&self, lane: u32, index: u16) -> Num {
        let tick = self.ending.tick;
        let key = tick.world.key(self.row(lane));
        random(tick.seed, tick.world.tick(), key, index)
    }
}

/// The cells of a lane.
pub(crate) fn cells_of(cells: &[[Num; LANES]; EFFECTS_MAX], lane: u32) -> [Num; EFFECTS_MAX]
    requires { lane < LANES }
    ensures { result ≡ map (λ column. lane_of column lane) cells.now }
{
    let mut row = [Num::zero(); EFFECTS_MAX];
    for effect in 0..EFFECTS_MAX {
        row[effect] = cells[effect][lane as usize];
    }
    row
}

/// The rows of a block behind its assignments, each of them a lane.
#[derive(Clone, Copy)]
pub(crate) struct NewLanes<'a> {
    pub old: RowLanes<'a>,
    pub values: &'a [[Num; LANES]; CONSTS_MAX],
}

impl NewLanes<'_> {
    ghost use Rattle.tick_postprocess.specs.Blocks.{new_context, values_in, CanReadNew};

    // An attribute of the row of a lane.
    fn attribute(&self, lane: u32, attr: Attr) -> Num
        requires { CanReadNew self.now lane }
        ensures { result ≡ attribute attr (new_context self.now lane).unit }
    {
        let tick = self.old.ending.tick;
        match attr {
            Attr::Key => Num::whole(tick.world.key(self.old.row(lane))),
            Attr::Const(attr) => match self.column(attr) {
                Some(column) => number_at(column, lane),
                None => Num::zero(),
            },
        }
    }

    // The new values of an attribute, where there is one with this number.
    fn column(&self, attr: u32) -> Option<&[Num; LANES]>
        ensures some { IfSome result (λ column. (lane : ℕ) → lane_of column.now lane ≡ slice_index_or (values_in self.now.old.ending.now self.now.values.now lane) attr (pos 0)) }
        ensures none { IfNone result ((lane : ℕ) → slice_index_or (values_in self.now.old.ending.now self.now.values.now lane) attr (pos 0) ≡ pos 0) }
    {
        let ending = self.old.ending;
        if attr < ending.tick.world.width() {
            Some(&self.values[attr as usize])
        } else {
            None
        }
    }
}

impl LaneContexts for NewLanes<'_> {
    ghost use Rattle.tick_postprocess.specs.Blocks.{new_context, CanReadNew};

    ghost can_read = { CanReadNew };

    ghost context = { new_context };

    fn unit(&self, lane: u32, attr: Attr) -> Num {
        self.attribute(lane, attr)
    }

    fn units(&self, mask: u64, attr: Attr, out: &mut [Num; LANES]) {
        match attr {
            Attr::Key => self.old.units(mask, Attr::Key, out),
            Attr::Const(number) => match self.column(number) {
                Some(column) => *out = *column,
                None => fill(Num::zero(), out),
            },
        }
    }

    fn lent_units(&self, _mask: u64, attr: Attr) -> Option<&[Num; LANES]> {
        match attr {
            Attr::Key => None,
            Attr::Const(number) => self.column(number),
        }
    }

    fn target(&self, lane: u32, attr: Attr) -> Num {
        self.attribute(lane, attr)
    }

    fn slot(&self, _lane: u32, _slot: u32) -> Val {
        Val::N(Num::zero())
    }

    fn combined(&self, lane: u32, effect: u32) -> Num {
        self.old.combined(lane, effect)
    }

    fn effects(&self, mask: u64, effect: u32, out: &mut [Num; LANES]) {
        self.old.effects(mask, effect, out);
    }

    fn random(&self, lane: u32, index: u16) -> Num {
        self.old.random(lane, index)
    }
}
