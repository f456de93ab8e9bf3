//! The worlds of a run, and the rule of a stand of them, for contracts alone.
ghost use Rattle.std.specs.Prelude.{List, []};
ghost use Rattle.sgl_values.specs.World.{World as WorldOf};
ghost use Rattle.world_publish.specs.Showing.{Holds, Looks as LooksOf, Publishes as PublishesOf};

use crate::showing::Showing;
use crossbeam_utils::rule::{Outcome, Protocol};
use std::marker::{Brand, PhantomData};

/// The worlds of a run. Contracts alone see them.
pub trait Course {
    ghost worlds: { List WorldOf };
}

impl Course for Brand {
    ghost worlds = { [] };
}

/// The rule of a stand. What a seat knows is the position that it has seen.
pub(crate) struct StandRule<C: Course> {
    of: PhantomData<C>,
}

impl<C: Course> Protocol<Showing, u32> for StandRule<C> {
    ghost holds = { Holds C.worlds };

    ghost first = { 0 };
}

/// What a look tells.
pub(crate) struct Looks<C: Course> {
    of: PhantomData<C>,
}

impl<C: Course> Outcome<Showing, u32> for Looks<C> {
    ghost then = { LooksOf C.worlds };
}

/// What a publication tells.
pub(crate) struct Publishes<C: Course> {
    of: PhantomData<C>,
}

impl<C: Course> Outcome<Showing, u32> for Publishes<C> {
    ghost then = { PublishesOf C.worlds };
}
