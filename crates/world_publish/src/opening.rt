//! A stand is opened: a publisher that shows the start of a run, and its spectators.
ghost use Rattle.std.specs.Prelude.{◌≡◌, ◌<◌, ◌≤◌, true, [], drop, replicate, IfOk};
ghost use Rattle.sgl_typed.specs.Tick.{worlds};
ghost use Rattle.sgl_typed.specs.WrittenOut.{is_written_out};
ghost use Rattle.world_publish.specs.Showing.{IsEntry};

use crate::publisher::Publisher;
use crate::rule::{Course, StandRule};
use crate::showing::Showing;
use crate::spectator::Spectator;
use env_table::World;
use left_right::writer::Writer;
use sgl_typed::TScript;
use sgl_values::{ITEMS_MAX, List, Memory, SPECTATORS_MAX, TICKS_MAX};
use std::alloc::Global;
use std::sync::{Arc, Wait};

/// A stand of the worlds of a run: its publisher, which has published a copy of the start at position 0, and so many
/// spectators, at most 16, who have seen it. The run is that of a script that is written out, from a start of tick 0, with
/// 1 to 8,000,000 items in a tick and at most 10,000 ticks; the arguments only say which run this is, and nothing of them
/// is kept. `Memory` is its only refusal. It takes `rt` only to end a publisher whose spectators could not be seated.
pub fn stand<C: Course, R: Wait>(
    alloc: Global,
    rt: &R,
    script: &TScript,
    start: &World,
    seed: u64,
    items: u64,
    ticks: u16,
    spectators: u32,
) -> Result<(Publisher<C>, List<Spectator<C>>), Memory>
    requires written_out { is_written_out script.now ≡ true }
    requires start { start.now.world.tick ≡ 0 }
    requires items { (0 < items) × (items ≤ ITEMS_MAX) }
    requires ticks { ticks ≤ TICKS_MAX }
    requires spectators { spectators ≤ SPECTATORS_MAX }
    requires all { C.worlds ≡ (worlds script.now start.now.world seed items ticks).worlds }
    ensures publisher { IfOk result (λ made. made.0 ≡ 1) }
    ensures spectators { IfOk result (λ made. made.1 ≡ replicate spectators 0) }
{
    let writer = start_writer::<C>(alloc, start, spectators)?;
    let publisher = Publisher {
        alloc,
        writer,
        next: 1,
    };
    match seat_spectators(alloc, &publisher, spectators) {
        Ok(seated) => Ok((publisher, seated)),
        Err(Memory) => {
            publisher.end(rt);
            Err(Memory)
        }
    }
}

/// A writer that shows a copy of the start at position 0, with room for so many spectators.
fn start_writer<C: Course>(
    alloc: Global,
    start: &World,
    spectators: u32,
) -> Result<Writer<Showing, Showing, u32, StandRule<C>>, Memory>
    requires { IsEntry C.worlds 0 start.now.world }
    ensures shown { IfOk result (λ writer. writer.desk.shown.value.position ≡ 0) }
    ensures none { IfOk result (λ writer. drop writer.behind writer.log.items ≡ []) }
{
    let world = Arc::new(alloc, start.copy(alloc)?).map_err(|_| Memory)?;
    let again = Arc::try_clone(&world)?;
    let first = Showing { world, position: 0 };
    let second = Showing {
        world: again,
        position: 0,
    };
    let seats = spectators.max(1) as usize;
    Ok(Writer::new(alloc, first, second, seats)?)
}

/// So many spectators of a publisher, who have seen position 0.
fn seat_spectators<C: Course>(
    alloc: Global,
    publisher: &Publisher<C>,
    count: u32,
) -> Result<List<Spectator<C>>, Memory>
    ensures { IfOk result (λ seated. seated ≡ replicate count 0) }
{
    let mut seated = List::new(alloc);
    for _ in 0..count {
        let reader = publisher.writer.factory().reader()?;
        seated.push(Spectator { reader, seen: 0 })?;
    }
    Ok(seated)
}
