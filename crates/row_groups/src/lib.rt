//! The rows of a world in groups by the values of a few attributes, and the rows of each group in a strip.
#![tactic(auto)]

mod across;
mod beside;
mod ends;
mod group_rows;
mod groups;
mod key;
mod means;
mod numbering;
mod points;
mod ranked;
mod sorted;
mod spread;
mod strip;

pub use group_rows::GroupRows;
pub use groups::Groups;
pub use key::along;
pub use means::Means;
pub use numbering::link_groups;
pub use points::{PointAttrs, group_points};
pub use sorted::SortedGroups;
pub use spread::each_group;
pub use strip::Strip;
