//! The list of the workers: which of them live, and how it changes with each event.

ghost use Rattle.std.specs.Prelude.{◌≡◌, ◌≢◌, true, [], ◌∷◌, ◌++◌, map, slice_set, OnOk, OnErr, IfOk};
ghost use Rattle.tick_core.specs.Core.{idle, lives, work_of};
ghost use Rattle.tick_core.specs.Events.{with_deed, joined, rested};

use crate::event::Deed;
use crate::worker::Worker;
use sgl_values::Memory;
use std::alloc::Global;

// One worker, who did nothing.
pub(crate) fn first_worker(alloc: Global) -> Result<Vec<Option<Worker>>, Memory>
    ensures { IfOk result (λ workers. workers.items ≡ Some idle ∷ []) }
{
    let mut workers = Vec::new(alloc);
    workers.push(Some(Worker::new(alloc)))?;
    Ok(workers)
}

// Whether the worker of this number lives.
pub(crate) fn lives(workers: &[Option<Worker>], worker: u32) -> bool
    ensures { result ≡ lives workers.now worker }
{
    match workers.get(worker as usize) {
        Some(worker) => worker.is_some(),
        None => false,
    }
}

// A worker does one thing more.
pub(crate) fn note_deed(
    workers: &mut Vec<Option<Worker>>,
    worker: u32,
    deed: Deed,
) -> Result<(), Memory>
    requires { lives workers.old.items worker ≡ true }
    ensures ok { OnOk result (workers.new.items
        ≡ slice_set workers.old.items worker (Some (with_deed (work_of workers.old.items worker) deed))) }
    ensures err { OnErr result (workers.new.items ≡ workers.old.items) }
{
    match &mut workers[worker as usize] {
        Some(worker) => worker.note(deed),
        None => Ok(()),
    }
}

// One more worker, who did nothing.
pub(crate) fn split_off(workers: &mut Vec<Option<Worker>>) -> Result<(), Memory>
    ensures ok { OnOk result (workers.new.items ≡ workers.old.items ++ Some idle ∷ []) }
    ensures err { OnErr result (workers.new.items ≡ workers.old.items) }
{
    let worker = Worker::new(*workers.allocator());
    workers.push(Some(worker))?;
    Ok(())
}

// A worker takes over what another did, which lives no longer.
pub(crate) fn join_workers(
    workers: &mut Vec<Option<Worker>>,
    into: u32,
    from: u32,
) -> Result<(), Memory>
    requires into { lives workers.old.items into ≡ true }
    requires from { lives workers.old.items from ≡ true }
    requires apart { into ≢ from }
    ensures ok { OnOk result (workers.new.items ≡ slice_set (slice_set workers.old.items into
        (Some (joined (work_of workers.old.items into) (work_of workers.old.items from)))) from None) }
    ensures err { OnErr result (workers.new.items ≡ workers.old.items) }
{
    let Some(mut worker) = workers[from as usize].take() else {
        return Ok(());
    };
    match take_over(workers, into, &mut worker) {
        Ok(()) => Ok(()),
        Err(Memory) => {
            workers[from as usize] = Some(worker);
            Err(Memory)
        }
    }
}

// A worker takes over what another did, which keeps it where that is refused.
fn take_over(
    workers: &mut Vec<Option<Worker>>,
    into: u32,
    worker: &mut Worker,
) -> Result<(), Memory>
    requires { lives workers.old.items into ≡ true }
    ensures ok { OnOk result (workers.new.items
        ≡ slice_set workers.old.items into (Some (joined (work_of workers.old.items into) worker.old))) }
    ensures err { OnErr result (workers.new.items ≡ workers.old.items) }
    ensures kept { OnErr result (worker.new ≡ worker.old) }
{
    match &mut workers[into as usize] {
        Some(into) => into.take_over(worker),
        None => Ok(()),
    }
}

// All who live have done nothing.
pub(crate) fn rest_all(workers: &mut Vec<Option<Worker>>)
    ensures { workers.new.items ≡ map rested workers.old.items }
{
    for place in 0..workers.len() {
        rest_one(&mut workers[place]);
    }
}

// A worker who lives has done nothing.
fn rest_one(worker: &mut Option<Worker>)
    ensures { worker.new ≡ rested worker.old }
{
    if let Some(worker) = worker {
        worker.rest();
    }
}
