//! What indices are made of.
ghost use Rattle.std.specs.Prelude.{◌≡◌, [], IfSome, Some, slice_get, true};
ghost use Rattle.battle_algebra.specs.Ways as ways;

use battle_algebra::{Node, Plan, Way, class_of};
use env_table::World;
use key_table::KeyTable;
use sgl_typed::{AggUse, TAgg, TScript};
use sgl_values::List;
use std::alloc::Global;

/// The plan of a script, a world with the rows of its keys, and the seed of the draw.
#[derive(Clone, Copy)]
pub(crate) struct Source<'a> {
    pub(crate) script: &'a TScript,
    pub(crate) plan: &'a Plan,
    pub(crate) world: &'a World,
    pub(crate) keys: &'a KeyTable,
    pub(crate) seed: u64,
}

impl<'a> Source<'a> {
    /// The nodes of the plan.
    pub(crate) fn nodes(&self) -> &'a [Node]
        ensures { result.now ≡ self.now.plan.now.nodes }
    {
        self.plan.nodes.as_slice()
    }

    /// The aggregate with this number, where it is answered in this way when it is called without arguments.
    pub(crate) fn agg_by_way(&self, alloc: Global, number: usize, way: Way) -> Option<&'a TAgg>
        ensures at { IfSome result (λ agg. slice_get self.now.script.now.aggs number ≡ Some agg.now) }
        ensures way { IfSome result (λ agg. ways.way_of (Some agg.now) [] ≡ way) }
    {
        let agg = self.script.aggs.get(number)?;
        if has_way(alloc, self.script, agg, number, way) {
            Some(agg)
        } else {
            None
        }
    }
}

// Whether an aggregate is answered in this way where it is called without arguments.
fn has_way(alloc: Global, script: &TScript, agg: &TAgg, number: usize, way: Way) -> bool
    requires { slice_get script.now.aggs number ≡ Some agg.now }
    ensures { result ≡ true → ways.way_of (Some agg.now) [] ≡ way }
{
    match u32::try_from(number) {
        Err(_) => false,
        Ok(number) => {
            let call = AggUse {
                agg: number,
                args: List::new(alloc),
                place: agg.place,
            };
            class_of(script, &call) == way
        }
    }
}
