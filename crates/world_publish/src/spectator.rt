//! Spectators, who look at the world that is published last, and the world that a look shows.
ghost use Rattle.std.specs.Prelude.{◌≡◌, ◌≤◌, max};
ghost use Rattle.world_publish.specs.Showing.{IsEntry};

use crate::receipt::Receipt;
use crate::rule::{Course, Looks, StandRule};
use crate::showing::Showing;
use env_table::World;
use left_right::reader::{Reader, Reading};
use std::marker::Model;
use std::sync::Wait;

/// One who looks at what is published. Contracts see the greatest position that it has seen or learnt of.
#[derive(Drop)]
pub struct Spectator<C: Course> {
    pub(crate) reader: Reader<Showing, u32, StandRule<C>>,
    pub(crate) seen: u32,
}

impl<C: Course> Model for Spectator<C> {
    ghost use Rattle.std.specs.Prelude.{ℕ};

    ghost Value = { ℕ };

    ghost view = { λ spectator. spectator.seen };
}

/// A world that a spectator looks at, which stays as it is until the look is ended. Contracts see its position. It is not
/// `Drop`: end it by `end`.
pub struct Shown<C: Course> {
    reading: Reading<Showing, u32, StandRule<C>>,
}

impl<C: Course> Model for Shown<C> {
    ghost use Rattle.std.specs.Prelude.{ℕ};
    ghost use Rattle.world_publish.specs.Showing.{IsShown};

    ghost Value = { ℕ };

    ghost view = { λ shown. shown.reading.part.value.position };

    ghost invariant = { λ shown. IsShown C.worlds shown.reading.part.value };
}

impl<C: Course> Spectator<C> {
    /// Looks at a published world, which is not before any that this spectator saw or learnt of. It does not wait for the
    /// publisher, but where the spectator learnt of a position whose world it cannot see yet.
    pub fn look<R: Wait>(self, rt: &R) -> Shown<C>
        ensures { self ≤ result }
    {
        let Spectator { mut reader, seen } = self;
        for _ in rt.forever() {
            match reader.enter_as::<Looks<C>>() {
                Ok(reading) => {
                    if reading.get().position >= seen {
                        return Shown { reading };
                    }
                    reader = reading.leave();
                }
                Err(same) => reader = same,
            }
        }
        unreachable!()
    }

    /// Learns of a published position, by a receipt of the same stand: no later look shows a position before it.
    pub fn learn(&mut self, receipt: &Receipt<C>)
        ensures { self.new ≡ max self.old receipt.now }
    {
        self.seen = self.seen.max(receipt.position);
    }
}

impl<C: Course> Shown<C> {
    /// The position of the world that is shown.
    pub fn position(&self) -> u32
        ensures { result ≡ self.now }
    {
        self.reading.get().position
    }

    /// The world that is shown. It is the entry of its position.
    pub fn world(&self) -> &World
        ensures { IsEntry C.worlds self.now result.now.world }
    {
        &*self.reading.get().world
    }

    /// Ends the look. The spectator has seen its position.
    pub fn end(self) -> Spectator<C>
        ensures { result ≡ self }
    {
        let Shown { reading } = self;
        let seen = reading.get().position;
        Spectator {
            reader: reading.leave(),
            seen,
        }
    }
}
