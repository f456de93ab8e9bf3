//! Laws of plans, for proofs above.
ghost use denote.Param.Send.{IsSync};
ghost use Rattle.battle_algebra.specs.contracts.plan.Plan.{the_row};
ghost use Rattle.battle_algebra.specs.contracts.normal_plan.NormalPlan as normal;

use crate::normal_plan::NormalPlan;
use crate::plan::Plan;

fn shared<T: Sync>()
    ensures { IsSync T.row }
{}

/// A law, and no work: threads may share a plan. A thread helper that borrows one is called just behind it.
pub fn plans_are_shared()
    ensures { IsSync the_row }
{
    shared::<Plan>()
}

/// A law, and no work: threads may share a plan in normal form.
pub fn normal_plans_are_shared()
    ensures { IsSync normal.the_row }
{
    shared::<NormalPlan>()
}
