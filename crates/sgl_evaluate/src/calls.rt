//! Who answers calls of aggregates.
ghost use Rattle.std.specs.Prelude.{◌≡◌, pos, List, take};
ghost use Rattle.sgl_values.specs.declared.fault.Val.{Val};
ghost use Rattle.sgl_values.specs.declared.fault.Val.TheVariants.{N};
ghost use Rattle.sgl_typed.specs.Value.{Calls};

use sgl_values::{Num, PARAMS_MAX, Val};

/// Who answers calls of aggregates: a scan, an index, or nobody where no call may stand.
pub trait AggregateCalls {
    /// What an answer asks of the one who answers.
    ghost can_call: { Self → Type 0 };

    /// What each call gives, by the number of the aggregate and the values of the arguments behind the unit.
    ghost gives: { Self → Calls };

    /// The value of a call of the aggregate with this number, which depends on the first sixteen arguments alone. It takes
    /// no memory.
    fn call(&self, agg: u32, args: &[Val]) -> Val
        requires { can_call self.now }
        ensures value { result ≡ gives self.now agg args.now }
        ensures sixteen { (given : List Val) → gives self.now agg (take PARAMS_MAX given) ≡ gives self.now agg given };
}

/// Where no aggregate is called.
#[derive(Clone, Copy)]
pub struct NoCalls;

impl AggregateCalls for NoCalls {
    ghost can_call = { λ s. Unit {0} };

    ghost gives = { λ s agg args. N (pos 0) };

    fn call(&self, _agg: u32, _args: &[Val]) -> Val {
        Val::N(Num::zero())
    }
}
