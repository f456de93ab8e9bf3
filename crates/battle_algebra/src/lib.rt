//! Plans: an algebra of frames, what it gives, its normal form, and the ways of its uses.
#![tactic(auto)]

mod axes;
mod bounds;
mod choice;
mod clause;
mod fixed;
mod law;
mod node_list;
mod normal_plan;
mod plan;
mod sorts;
mod targets;

pub use axes::{covered, first_range, is_along, next_range};
pub use choice::{class_of, effect_way};
pub use clause::clause_at;
pub use law::{normal_plans_are_shared, plans_are_shared};
pub use node_list::{NodeList, has_child, has_children};
pub use normal_plan::NormalPlan;
pub use plan::{EffectUse, EffectWay, Node, Plan, Way};
pub use sorts::{
    attr_of, is_circle, is_equal_test, is_own_key, is_range_test, is_unequal_test, sole_key,
    tests_key,
};
