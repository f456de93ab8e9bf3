//! Workers leave the rooms of their scratches to the next tick.
ghost use Rattle.tick_engine.specs.Leaving.{AreLeft, IsLeft};

use std::alloc::Global;
use task_board::Worker;
use task_scratch::SpareRoom;

/// The workers without their rooms, which go to the list. There is place for them, and no memory is taken.
pub(crate) fn leave_rooms(
    alloc: Global,
    mut workers: Vec<Worker>,
    rooms: &mut Vec<SpareRoom>,
) -> Vec<Worker>
    ensures { AreLeft workers.items result.items }
{
    for at in 0..workers.len() {
        let room = leave_room(alloc, &mut workers[at]);
        let _ = rooms.push(room);
    }
    workers
}

// The room of a worker.
fn leave_room(alloc: Global, worker: &mut Worker) -> SpareRoom
    ensures { IsLeft worker.old worker.new }
{
    worker.scratch.leave_room(alloc)
}
