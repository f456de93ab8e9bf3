//! What a seat knows of its board, for contracts alone.

use sgl_values::Tag;
use std::collections::LinkedList;
use tick_core::Give;

/// What a seat knows: the number of tasks of its board and the tags of the effect attributes, its worker's number (0 for
/// the first seat), the tasks that it claimed, what it gave, how many claims found all tasks given out, how many seats it
/// stands for (none where it was joined into another), and, in the first seat, how many seats were made. Contracts speak
/// of it, and no value of it is made.
pub struct View {
    pub tasks: u32,
    pub tags: LinkedList<Tag>,
    pub number: u32,
    pub claimed: LinkedList<u32>,
    pub gives: LinkedList<Give>,
    pub misses: u32,
    pub seats: u32,
    pub made: u32,
}
