//! Copies of schemas, the parts of `post` and whole scripts.

use crate::deep_copy::{DeepCopy, copied};
use crate::schema::{EffectAttr, Schema};
use crate::script::{TRule, TScript, TSpawn};
use sgl_values::Memory;
use std::alloc::Global;

impl DeepCopy for TScript {
    fn deep_copy(&self, alloc: Global) -> Result<TScript, Memory> {
        copied!(alloc, self => TScript {
            schema, aggs, actions, routines, main, rules, spawn, removal
        }, slots)
    }
}

impl DeepCopy for Schema {
    fn deep_copy(&self, alloc: Global) -> Result<Schema, Memory> {
        copied!(alloc, self => Schema { consts, effects })
    }
}

impl DeepCopy for EffectAttr {
    fn deep_copy(&self, alloc: Global) -> Result<EffectAttr, Memory> {
        copied!(alloc, self => EffectAttr { name }, tag, init)
    }
}

impl DeepCopy for TRule {
    fn deep_copy(&self, alloc: Global) -> Result<TRule, Memory> {
        copied!(alloc, self => TRule { value }, attr)
    }
}

impl DeepCopy for TSpawn {
    fn deep_copy(&self, alloc: Global) -> Result<TSpawn, Memory> {
        copied!(alloc, self => TSpawn { cond, rules })
    }
}
