//! Tasks of a plan: the frames of at most 64 rows go down its nodes in one loop, and what they give goes to the board.
#![tactic(auto)]

mod acting;
mod aiming;
mod amounts;
mod batching;
mod clause_lanes;
mod giving;
mod items;
mod lane_giving;
mod outlet;
mod plan_run;
mod reach;
mod row_set;
mod run;
mod setting;
mod splitting;
mod step;
mod task;
mod values;
mod writing;

pub use plan_run::PlanRun;
