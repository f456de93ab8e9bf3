//! A gate that each worker passes before each task.
ghost use Rattle.std.specs.Prelude.{◌<◌};

use sgl_values::WORKERS_MAX;
use std::sync::atomic::{AtomicBool, AtomicU64, Ordering};

/// The worker's number of spectator 0, above those of all workers that run tasks.
pub const FIRST_SPECTATOR: u32 = WORKERS_MAX;

/// What each worker passes once before each task that it has claimed, and each spectator before each of its looks.
///
/// Workers that run tasks have the numbers from 0 to 63, and spectator s is worker 64 + s, with the number of its look,
/// from 0, as the task. A gate gives no answer, so no contract speaks of it: it is there to let workers meet, and all
/// that is proved of the code behind it holds whatever it does.
pub trait Gate: Sync {
    /// Passes the gate once.
    fn pass(&self, worker: u32, task: u32);
}

/// A gate that is always open: a pass does nothing.
#[derive(Clone, Copy, Debug, PartialEq, Eq)]
pub struct OpenGate;

impl Gate for OpenGate {
    fn pass(&self, _worker: u32, _task: u32) {}
}

/// A gate at which workers look for one another.
///
/// The first pass of each worker looks, up to a number of turns, whether a second worker has begun a pass. It knows
/// the workers from 0 to 127, and any other looks for nobody.
#[derive(Drop)]
pub struct MeetGate {
    turns: u64,
    // One bit for each worker below 64 that has begun a pass, and one for each of the next 64.
    workers: AtomicU64,
    spectators: AtomicU64,
    // How many stand in a pass.
    inside: AtomicU64,
    met: AtomicBool,
}

impl MeetGate {
    /// A gate at which each worker looks up to `turns` times.
    pub fn new(turns: u64) -> Self {
        MeetGate {
            turns,
            workers: AtomicU64::new(0),
            spectators: AtomicU64::new(0),
            inside: AtomicU64::new(0),
            met: AtomicBool::new(false),
        }
    }

    /// Whether two workers stood in a pass at once.
    pub fn met(&self) -> bool {
        self.met.load(Ordering::SeqCst)
    }

    // Notes that the worker has begun a pass, and tells whether it is the worker's first.
    fn is_first(&self, worker: u32) -> bool {
        if worker < FIRST_SPECTATOR {
            is_first_of(&self.workers, worker)
        } else if worker < 2 * FIRST_SPECTATOR {
            is_first_of(&self.spectators, worker - FIRST_SPECTATOR)
        } else {
            false
        }
    }

    fn have_two_begun(&self) -> bool {
        let workers = self.workers.load(Ordering::SeqCst).count_ones();
        let spectators = self.spectators.load(Ordering::SeqCst).count_ones();
        workers + spectators > 1
    }
}

// Only the worker itself sets its bit, so the sum carries nothing.
fn is_first_of(begun: &AtomicU64, place: u32) -> bool
    requires { place < 64 }
{
    let bit = 1u64 << place;
    if begun.load(Ordering::SeqCst) & bit != 0 {
        return false;
    }
    begun.fetch_add(bit, Ordering::SeqCst);
    true
}

impl Gate for MeetGate {
    fn pass(&self, worker: u32, _task: u32) {
        if self.inside.fetch_add(1, Ordering::SeqCst) != 0 {
            self.met.store(true, Ordering::SeqCst);
        }
        if self.is_first(worker) {
            for _ in 0..self.turns {
                if self.have_two_begun() {
                    break;
                }
            }
        }
        self.inside.fetch_sub(1, Ordering::SeqCst);
    }
}

/// A gate at which worker 0 and spectator 0, which is worker 64, wait for steps of one another.
///
/// The first pass of worker 64 looks, up to a number of turns, whether worker 0 has begun its pass of a given number.
/// That pass of worker 0 looks, up to as many turns, whether worker 64 has begun its second. Every other pass does
/// nothing.
#[derive(Drop)]
pub struct StepGate {
    at: u64,
    turns: u64,
    worker_passes: AtomicU64,
    spectator_passes: AtomicU64,
}

impl StepGate {
    /// A gate for the pass number `at` of worker 0, counted from 1, with up to `turns` looks at each place.
    pub fn new(at: u32, turns: u64) -> Self {
        StepGate {
            at: u64::from(at),
            turns,
            worker_passes: AtomicU64::new(0),
            spectator_passes: AtomicU64::new(0),
        }
    }

    // Looks until the count has come so far, or the turns are over.
    fn look_for(&self, passes: &AtomicU64, number: u64) {
        for _ in 0..self.turns {
            if passes.load(Ordering::SeqCst) >= number {
                break;
            }
        }
    }
}

impl Gate for StepGate {
    fn pass(&self, worker: u32, _task: u32) {
        if worker == 0 {
            let before = self.worker_passes.fetch_add(1, Ordering::SeqCst);
            if before.wrapping_add(1) == self.at {
                self.look_for(&self.spectator_passes, 2);
            }
        } else if worker == FIRST_SPECTATOR {
            let before = self.spectator_passes.fetch_add(1, Ordering::SeqCst);
            if before == 0 {
                self.look_for(&self.worker_passes, self.at);
            }
        }
    }
}
