//! Where the worlds of a run are shown, if anyone watches.
ghost use Rattle.std.specs.Prelude.{◌≡◌, ◌+◌, IfSome, MatchResult};
ghost use Rattle.battle_watch.specs.Stages.{IsLastOf, one_more};
ghost use Rattle.world_publish.specs.Showing.{IsEntry};

use env_table::World;
use sgl_values::Memory;
use std::alloc::Global;
use std::marker::Model;
use std::sync::Wait;
use world_publish::{Course, Publisher, Receipt};

/// The publisher of a run with the receipt of what it published last. Contracts see the number of published positions. It
/// is not `Drop`: end it by `end_stage`.
pub struct Stage<C: Course> {
    publisher: Publisher<C>,
    last: Option<Receipt<C>>,
}

impl<C: Course> Model for Stage<C> {
    ghost use Rattle.std.specs.Prelude.{ℕ};
    ghost use Rattle.battle_watch.specs.Stages.{IsLastOf};

    ghost Value = { ℕ };

    ghost view = { λ stage. stage.publisher };

    ghost invariant = { λ stage. IsLastOf stage.publisher stage.last };
}

impl<C: Course> Stage<C> {
    /// A stage that has shown world 0 alone.
    pub(crate) fn new(publisher: Publisher<C>) -> Stage<C>
        requires { publisher ≡ 1 }
        ensures { result ≡ 1 }
    {
        Stage {
            publisher,
            last: None,
        }
    }

    // Publishes a copy of a world.
    fn publish<R: Wait>(&mut self, rt: &R, alloc: Global, world: &World) -> Result<(), Memory>
        requires { IsEntry C.worlds self.old world.now.world }
        ensures { MatchResult result (λ _. self.new ≡ self.old + 1) (λ _. self.new ≡ self.old) }
    {
        let copy = world.copy(alloc)?;
        let receipt = self.publisher.publish(rt, copy)?;
        self.last = Some(receipt);
        Ok(())
    }

    /// The receipt of what was published last: none where it is world 0.
    pub(crate) fn last(&self) -> &Option<Receipt<C>>
        ensures { IsLastOf self.now result.now }
    {
        &self.last
    }

    /// Ends the publishing.
    pub(crate) fn end<R: Wait>(self, rt: &R) {
        let Stage { publisher, last: _ } = self;
        publisher.end(rt);
    }
}

/// Publishes a copy of the next world of a run, where there is a stage; without one nothing is copied. At `Memory` nothing
/// was published.
pub fn publish_world<C: Course, R: Wait>(
    rt: &R,
    alloc: Global,
    world: &World,
    stage: &mut Option<Stage<C>>,
) -> Result<(), Memory>
    requires { IfSome stage.old (λ position. IsEntry C.worlds position world.now.world) }
    ensures { MatchResult result (λ _. stage.new ≡ one_more stage.old) (λ _. stage.new ≡ stage.old) }
{
    match stage {
        Some(stage) => stage.publish(rt, alloc, world),
        None => Ok(()),
    }
}

/// Ends a stage, where there is one. It waits for spectators that look, and takes no memory.
pub fn end_stage<C: Course, R: Wait>(rt: &R, stage: Option<Stage<C>>) {
    match stage {
        Some(stage) => stage.end(rt),
        None => {}
    }
}
