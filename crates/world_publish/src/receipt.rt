//! Receipts, by which a spectator learns that a position was published.
ghost use Rattle.std.specs.Prelude.{◌≡◌};

use crate::rule::Course;
use std::marker::{Model, PhantomData};

/// That a position was published. Contracts see the position.
#[derive(Drop)]
pub struct Receipt<C: Course> {
    pub(crate) position: u32,
    pub(crate) of: PhantomData<C>,
}

impl<C: Course> Model for Receipt<C> {
    ghost use Rattle.std.specs.Prelude.{ℕ};

    ghost Value = { ℕ };

    ghost view = { λ receipt. receipt.position };
}

impl<C: Course> Receipt<C> {
    /// The position that was published.
    pub fn position(&self) -> u32
        ensures { result ≡ self.now }
    {
        self.position
    }
}
