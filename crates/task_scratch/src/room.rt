//! What a task works with.
use crate::slot_rows::SlotRows;
use sgl_lanes::LaneValues;
use sgl_values::Val;

/// A set of rows for each node, a bit for each of the 64 rows of a task, and the slots of each row.
#[derive(Drop)]
pub struct Room {
    pub masks: Vec<u64>,
    pub rows: SlotRows,
    /// Room for the slots of one row, as many as the plan has.
    pub frame: Vec<Val>,
    /// Room for the arguments of an effect for one row, at most 16.
    pub args: Vec<Val>,
    /// Room for the arguments of an effect for all rows of a set, at most 16.
    pub arg_lanes: Vec<LaneValues>,
    /// Room for the amounts of the writes of a clause for all rows of a set, of as many as 16 writes.
    pub amounts: Vec<LaneValues>,
    /// Room for the right sides of operations for all rows of a set.
    pub spare: Vec<LaneValues>,
    /// How many frames reached each node; a count that would pass the greatest of 64 bits stops there.
    pub reach: Vec<u64>,
}
