//! One value on the heap, through which a tree holds its parts.
ghost use Rattle.std.specs.Prelude.{◌≡◌, IfOk};

use crate::memory::Memory;
use std::alloc::{AllocError, Global};
use std::marker::Model;

/// A value on the heap, through which a tree holds its parts. Contracts see the value itself, so trees that say the
/// same are equal wherever they lie.
#[derive(Debug, Drop)]
pub struct Boxed<T> {
    inner: Box<T>,
}

impl<T> Model for Boxed<T> {
    ghost Value = { T };

    ghost coded = { T.code };

    ghost view = { λ boxed. boxed.inner.value };
}

impl<T> Boxed<T> {
    /// The value, lent.
    pub fn get(&self) -> &T
        ensures { result.now ≡ self.now }
    {
        &self.inner
    }

    /// The value, taken out.
    pub fn into_inner(self) -> T
        ensures { result ≡ self }
    {
        let Boxed { inner } = self;
        Box::into_inner(inner)
    }
}

impl<T: Drop> Boxed<T> {
    /// Puts a value on the heap; refused for want of memory alone, and then the value is given up.
    pub fn new(alloc: Global, value: T) -> Result<Boxed<T>, Memory>
        ensures { IfOk result (λ boxed. boxed ≡ value) }
    {
        Ok(Boxed {
            inner: Box::new(alloc, value)?,
        })
    }
}

impl<T: Clone> Clone for Boxed<T> {
    ghost is_clone = { λ v w. T.is_clone v w };

    fn clone(&self) -> Result<Boxed<T>, AllocError> {
        Ok(Boxed {
            inner: self.inner.clone()?,
        })
    }
}

impl<T: PartialEq> PartialEq for Boxed<T> {
    ghost eq = { T.eq };

    ghost laws = { T.laws };

    fn eq(&self, other: &Boxed<T>) -> bool {
        *self.inner == *other.inner
    }
}

impl<T: Eq> Eq for Boxed<T> {
    ghost laws = { T.Eq.laws };
}
