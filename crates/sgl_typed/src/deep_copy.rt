//! Copies of what scripts are made of, and those of lists, options, names and numbers.
ghost use Rattle.std.specs.Prelude.{◌≡◌, IfOk};

use sgl_values::{List, Memory, Place, Text};
use std::alloc::Global;

/// A part of a script, of which copies can be made.
pub trait DeepCopy: Drop {
    /// A copy, with all that it holds; refused for want of memory alone.
    fn deep_copy(&self, alloc: Global) -> Result<Self, Memory>
        ensures { IfOk result (λ copy. copy ≡ self.now) };
}

// A copy of a struct, or of a variant whose fields are bound: deep copies of the parts in braces, and the parts behind
// them as they are.
macro_rules! copied {
    ($alloc:ident, $whole:ident => $name:ident { $($part:ident),+ } $(, $plain:ident)*) => {{
        $(let $part = $whole.$part.deep_copy($alloc)?;)+
        Ok($name { $($part,)+ $($plain: $whole.$plain),* })
    }};
    ($alloc:ident => $name:ident :: $variant:ident { $($part:ident),+ } $(, $plain:ident)*) => {{
        $(let $part = $part.deep_copy($alloc)?;)+
        Ok($name::$variant { $($part,)+ $($plain: *$plain),* })
    }};
}

pub(crate) use copied;

// A copy of each part, in their order.
fn copy_all<T: DeepCopy>(alloc: Global, parts: &[T]) -> Result<List<T>, Memory>
    ensures { IfOk result (λ copies. copies ≡ parts.now) }
{
    let mut copies = List::new(alloc);
    for part in parts {
        copies.push(part.deep_copy(alloc)?)?;
    }
    Ok(copies)
}

impl<T: DeepCopy> DeepCopy for List<T> {
    fn deep_copy(&self, alloc: Global) -> Result<List<T>, Memory> {
        copy_all(alloc, self.as_slice())
    }
}

impl<T: DeepCopy> DeepCopy for Option<T> {
    fn deep_copy(&self, alloc: Global) -> Result<Option<T>, Memory> {
        match self {
            Some(part) => Ok(Some(part.deep_copy(alloc)?)),
            None => Ok(None),
        }
    }
}

impl DeepCopy for Text {
    fn deep_copy(&self, alloc: Global) -> Result<Text, Memory> {
        Text::of(alloc, self.as_str())
    }
}

impl DeepCopy for u32 {
    fn deep_copy(&self, _alloc: Global) -> Result<u32, Memory> {
        Ok(*self)
    }
}

impl DeepCopy for Place {
    fn deep_copy(&self, _alloc: Global) -> Result<Place, Memory> {
        Ok(*self)
    }
}
