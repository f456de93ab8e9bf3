//! The publisher of a stand, which shows the next world of a run with each call.
ghost use Rattle.std.specs.Prelude.{◌≡◌, ◌+◌, ◌^◌, ◌<◌, All, drop, length, MatchResult};
ghost use Rattle.world_publish.specs.Showing.{IsEntry, Waits};

use crate::receipt::Receipt;
use crate::rule::{Course, Publishes, StandRule};
use crate::showing::Showing;
use core::mem::replace_with;
use env_table::World;
use left_right::writer::Writer;
use sgl_values::Memory;
use std::alloc::Global;
use std::marker::{Model, PhantomData};
use std::sync::{Arc, Wait};

/// The one that shows worlds. Contracts see the number of published positions. It is not `Drop`: end it by `end`.
pub struct Publisher<C: Course> {
    pub(crate) alloc: Global,
    pub(crate) writer: Writer<Showing, Showing, u32, StandRule<C>>,
    pub(crate) next: u32,
}

impl<C: Course> Model for Publisher<C> {
    ghost use Rattle.std.specs.Prelude.{◌≡◌, ◌+◌, ◌^◌, ◌<◌, ℕ, drop, length, All};
    ghost use Rattle.world_publish.specs.Showing.{Waits};

    ghost Value = { ℕ };

    ghost view = { λ publisher. publisher.next };

    ghost invariant = { λ publisher. (publisher.writer.desk.shown.value.position + 1 ≡ publisher.next) × (length C.worlds < 2 ^ 32) × All (Waits C.worlds publisher.next) (drop publisher.writer.behind publisher.writer.log.items) };
}

impl<C: Course> Publisher<C> {
    /// Publishes the world of the next position, and gives a receipt of it. At `Memory` nothing was published, and the
    /// world is given up; it may be tried again. It waits for spectators that still look at the world before the last.
    pub fn publish<R: Wait>(&mut self, rt: &R, world: World) -> Result<Receipt<C>, Memory>
        requires { IsEntry C.worlds self.old world.world }
        ensures { MatchResult result (λ receipt. (receipt ≡ self.old) × (self.new ≡ self.old + 1)) (λ _. self.new ≡ self.old) }
    {
        replace_with(self, world, |publisher: Publisher<C>, world: World| {
            publisher.published(rt, world)
        })
    }

    /// The same, of a publisher that is given back.
    fn published<R: Wait>(self, rt: &R, world: World) -> (Publisher<C>, Result<Receipt<C>, Memory>)
        requires { IsEntry C.worlds self world.world }
        ensures { MatchResult result.1 (λ receipt. (receipt ≡ self) × (result.0 ≡ self + 1)) (λ _. result.0 ≡ self) }
    {
        let Publisher {
            alloc,
            mut writer,
            next,
        } = self;
        let Ok(world) = Arc::new(alloc, world) else {
            return (Publisher::of(alloc, writer, next), Err(Memory));
        };
        let showing = Showing {
            world,
            position: next,
        };
        match writer.append(showing) {
            Ok(()) => {}
            Err(_) => return (Publisher::of(alloc, writer, next), Err(Memory)),
        }
        let (writer, published) = writer.publish_as::<Publishes<C>, R>(rt);
        match published {
            Ok(()) => {
                let receipt = Receipt {
                    position: next,
                    of: PhantomData,
                };
                (Publisher::of(alloc, writer, next + 1), Ok(receipt))
            }
            Err(error) => (Publisher::of(alloc, writer, next), Err(Memory::from(error))),
        }
    }

    // A publisher that has published so many positions.
    fn of(
        alloc: Global,
        writer: Writer<Showing, Showing, u32, StandRule<C>>,
        next: u32,
    ) -> Publisher<C>
        requires counted { writer.desk.shown.value.position + 1 ≡ next }
        requires few { length C.worlds < 2 ^ 32 }
        requires pending { All (Waits C.worlds next) (drop writer.behind writer.log.items) }
        ensures { result ≡ next }
    {
        Publisher {
            alloc,
            writer,
            next,
        }
    }

    /// Ends the publishing. It waits for spectators that look, and takes no memory. A look that begins later never ends.
    pub fn end<R: Wait>(self, rt: &R) {
        let Publisher {
            alloc: _,
            writer,
            next: _,
        } = self;
        writer.take(rt);
    }
}
