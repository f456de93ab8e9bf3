//! Calls that are made above.
ghost use Rattle.std.specs.Prelude.{◌≡◌, reverse};
ghost use Rattle.plan_rewrite.specs.Rewrite.{slot_of as slot_among};
ghost use Rattle.battle_algebra.specs.Same.{same_call};

use sgl_typed::{AggUse, are_all_same};

/// A call that is made above, with the slot of its value.
#[derive(Debug, Drop)]
pub struct Known {
    pub slot: u32,
    pub call: AggUse,
}

/// Whether two calls are of one aggregate with equal arguments.
pub fn same_calls(a: &AggUse, b: &AggUse) -> bool
    ensures { result ≡ same_call a.now b.now }
{
    if a.agg != b.agg {
        return false;
    }
    are_all_same(a.args.as_slice(), b.args.as_slice())
}

/// The slot of an equal call; the last one goes first.
pub fn slot_of(above: &[Known], call: &AggUse) -> Option<u32>
    ensures { result ≡ slot_among same_call call.now (reverse above.now) }
{
    let len = above.len();
    for behind in 0..len {
        let known = &above[len - (behind + 1)];
        if same_calls(call, &known.call) {
            return Some(known.slot);
        }
    }
    None
}
