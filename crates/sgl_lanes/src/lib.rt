//! The values of an expression for up to 64 rows side by side, node by node. Nothing here takes memory.
#![tactic(auto)]

mod arithmetic;
mod contexts;
mod division;
mod divisor;
mod evaluation;
mod factor;
mod kind;
mod lane_division;
mod lane_set;
mod leaf;
mod long_divisor;
mod near;
mod operation;
mod product;
mod rows;
mod short_division;
mod side;
mod sizes;
mod unary;
mod values;
mod whole;

pub use contexts::LaneContexts;
pub use evaluation::lanes;
pub use kind::Lanes;
pub use lane_set::{
    LANES, first_lanes, has_lane, lanes_in_both, lanes_in_either, lanes_without, number_at,
    one_lane, truth_at,
};
pub use leaf::fill;
pub use rows::{read_columns, read_rows};
pub use values::{LaneValues, SPARE_LANES};
