//! Copies of aggregates and actions.

use crate::deep_copy::{DeepCopy, copied};
use crate::script::{TAction, TAgg, TOn, TTest, TWrite};
use sgl_values::Memory;
use std::alloc::Global;

impl DeepCopy for TAgg {
    fn deep_copy(&self, alloc: Global) -> Result<TAgg, Memory> {
        let name = self.name.deep_copy(alloc)?;
        let tests = self.tests.deep_copy(alloc)?;
        Ok(TAgg {
            name,
            params: self.params,
            kind: self.kind,
            place: self.place,
            attr: self.attr,
            second: self.second,
            tests,
            otherwise: self.otherwise,
        })
    }
}

impl DeepCopy for TAction {
    fn deep_copy(&self, alloc: Global) -> Result<TAction, Memory> {
        copied!(alloc, self => TAction { name, ons }, params)
    }
}

impl DeepCopy for TOn {
    fn deep_copy(&self, alloc: Global) -> Result<TOn, Memory> {
        copied!(alloc, self => TOn { tests, writes })
    }
}

impl DeepCopy for TTest {
    fn deep_copy(&self, alloc: Global) -> Result<TTest, Memory> {
        match self {
            TTest::Compare { attr, op, right } => {
                copied!(alloc => TTest::Compare { right }, attr, op)
            }
            TTest::Within { x, y, radius } => copied!(alloc => TTest::Within { radius }, x, y),
        }
    }
}

impl DeepCopy for TWrite {
    fn deep_copy(&self, alloc: Global) -> Result<TWrite, Memory> {
        let amount = self.amount.deep_copy(alloc)?;
        let by = match &self.by {
            Some((place, priority)) => Some((*place, priority.deep_copy(alloc)?)),
            None => None,
        };
        Ok(TWrite {
            effect: self.effect,
            amount,
            by,
        })
    }
}
