//! Names, as owned texts.
ghost use Rattle.std.specs.Prelude.{◌≡◌, IfOk};

use crate::memory::Memory;
use std::alloc::{AllocError, Global};
use std::marker::Model;

/// A name. Contracts see the list of its bytes.
#[derive(Debug, Drop)]
pub struct Text {
    inner: String,
}

impl Model for Text {
    ghost use Rattle.std.specs.Prelude.{List, ℕ, string_bytes};

    ghost Value = { List ℕ };

    ghost view = { λ t. string_bytes t.inner };
}

impl Text {
    /// A text with these bytes; refused for want of memory alone.
    pub fn of(alloc: Global, text: &str) -> Result<Text, Memory>
        ensures { IfOk result (λ t. t ≡ text.now) }
    {
        Ok(Text {
            inner: String::from_str(alloc, text)?,
        })
    }

    /// The bytes, lent.
    pub fn as_str(&self) -> &str
        ensures { result.now ≡ self.now }
    {
        self.inner.as_str()
    }
}

impl Clone for Text {
    ghost is_clone = { λ t u. u ≡ t };

    fn clone(&self) -> Result<Text, AllocError> {
        Ok(Text {
            inner: self.inner.clone()?,
        })
    }
}
