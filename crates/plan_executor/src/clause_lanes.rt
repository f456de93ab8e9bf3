//! The clause of an effect in the lanes of a task.
ghost use Rattle.std.specs.Prelude.{◌≡◌, ◌<◌, ◌+◌, length};

use crate::run::Run;
use sgl_evaluate::attribute_of;
use sgl_lanes::{LANES, LaneContexts, LaneValues, Lanes, fill};
use sgl_typed::Attr;
use sgl_values::{Num, Val};

/// The clause of an effect in the lanes of a task: its slots are the arguments of each row, and its targets these rows.
#[derive(Clone, Copy)]
pub(crate) struct ClauseLanes<'a> {
    pub run: &'a Run<'a>,
    pub args: &'a [LaneValues],
    pub targets: &'a [u32; LANES],
}

impl LaneContexts for ClauseLanes<'_> {
    ghost use Rattle.plan_executor.specs.Clauses.{CanReadClause, clause_frame};

    ghost can_read = { CanReadClause };

    ghost context = { clause_frame };

    fn unit(&self, lane: u32, attr: Attr) -> Num {
        self.run.attribute(lane, attr)
    }

    fn units(&self, _mask: u64, attr: Attr, out: &mut [Num; LANES]) {
        self.run.put_attribute(attr, out);
    }

    fn lent_units(&self, _mask: u64, attr: Attr) -> Option<&[Num; LANES]> {
        self.run.column(attr)
    }

    fn target(&self, lane: u32, attr: Attr) -> Num {
        let run = self.run;
        attribute_of(run.tick.world, self.targets[lane as usize], attr)
    }

    fn slot(&self, lane: u32, slot: u32) -> Val {
        match self.args.get(slot as usize) {
            Some(values) => values.at(lane),
            None => Val::N(Num::zero()),
        }
    }

    fn slots(&self, _mask: u64, slot: u32, out: &mut [Num; LANES]) -> Lanes {
        let at = slot as usize;
        if at < self.args.len() {
            *out = self.args[at].numbers;
            self.args[at].kind
        } else {
            fill(Num::zero(), out);
            Lanes::Numbers
        }
    }

    fn lent_slots(&self, _mask: u64, slot: u32) -> Option<&[Num; LANES]> {
        let values = self.args.get(slot as usize)?;
        match values.kind {
            Lanes::Numbers => Some(&values.numbers),
            _ => None,
        }
    }

    fn combined(&self, _lane: u32, _effect: u32) -> Num {
        Num::zero()
    }

    fn random(&self, lane: u32, index: u16) -> Num {
        self.run.random(lane, index)
    }
}
