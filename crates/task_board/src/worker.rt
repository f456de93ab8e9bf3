//! A worker's seat, with what it works with and what it tells.
use crate::summary::Summary;
use effect_board::Seat;
use task_scratch::Scratch;

/// A worker's seat at the board, its scratch, and what it tells of the items of the tasks that it claimed.
#[derive(Drop)]
pub struct Worker {
    pub seat: Seat,
    pub scratch: Scratch,
    pub summary: Summary,
}
