//! A world with its position, as the two sides of a stand hold it.
ghost use Rattle.std.specs.Arc.{arc_value};

use env_table::World;
use left_right::Absorb;
use std::alloc::AllocError;
use std::sync::Arc;

/// A world with its position among those published.
#[derive(Drop)]
pub(crate) struct Showing {
    pub(crate) world: Arc<World>,
    pub(crate) position: u32,
}

// What is published takes the place of what was shown.
impl Absorb<Showing> for Showing {
    type State = (World, u32);

    ghost state = { λ s. (arc_value s.world, s.position) };

    ghost applied = { λ _ s. (arc_value s.world, s.position) };

    fn absorb_first(&mut self, operation: &Showing, _other: &Showing) -> Result<(), AllocError> {
        let world = Arc::try_clone(&operation.world)?;
        *self = Showing {
            world,
            position: operation.position,
        };
        Ok(())
    }

    fn absorb_second(&mut self, operation: Showing, _other: &Showing) -> Result<(), Showing> {
        *self = operation;
        Ok(())
    }
}
