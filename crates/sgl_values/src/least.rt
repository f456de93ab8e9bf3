//! The lesser of two.
ghost use Rattle.std.specs.Prelude.{◌≡◌};
ghost use Rattle.sgl_values.specs.Least.{lesser_of};

use std::cmp::Ordering;

/// The lesser of two that may be there, and of equals the first.
pub fn lesser<T: Ord + Copy>(a: Option<T>, b: Option<T>) -> Option<T>
    ensures { result ≡ lesser_of T.cmp a b }
{
    match (a, b) {
        (Some(x), Some(y)) => Some(if x.cmp(&y) == Ordering::Greater { y } else { x }),
        (None, b) => b,
        (a, None) => a,
    }
}
