//! The least keys of points, whichever group is left out.
ghost use Rattle.std.specs.Prelude.{◌≡◌, ◌≤◌, List, [], ◌∷◌, ◌++◌, Some};
ghost use Rattle.std.specs.Ordering.{nat_cmp};
ghost use Rattle.sgl_values.specs.Least.{lesser_of};
ghost use Rattle.nearest_tree.specs.declared.point.NearPoint.{NearPoint};
ghost use Rattle.nearest_tree.specs.Keys.{AreLeastKeys, key_without};

use crate::point::NearPoint;
use sgl_values::lesser;

/// The least key of some points with the group of one that has it, and the least key of the points
/// of other groups, where there are any.
#[derive(Clone, Copy, Debug)]
pub(crate) struct LeastKeys {
    group: i64,
    first: u32,
    other: Option<u32>,
}

impl LeastKeys {
    /// Those of one point.
    pub(crate) fn alone(point: &NearPoint) -> LeastKeys
        ensures { AreLeastKeys result (point.now ∷ []) }
    {
        LeastKeys {
            group: point.group,
            first: point.key,
            other: None,
        }
    }

    /// Those of one point more.
    pub(crate) fn with(&self, point: &NearPoint) -> LeastKeys
        ensures { (points : List NearPoint) → AreLeastKeys self.now points → AreLeastKeys result (points ++ point.now ∷ []) }
    {
        if point.group == self.group {
            LeastKeys {
                group: self.group,
                first: lesser_key(self.first, point.key),
                other: self.other,
            }
        } else if point.key < self.first {
            LeastKeys {
                group: point.group,
                first: point.key,
                other: Some(self.first),
            }
        } else {
            LeastKeys {
                group: self.group,
                first: self.first,
                other: lesser(self.other, Some(point.key)),
            }
        }
    }

    /// The least key of the points that are not of the given group; `None` exactly where there are
    /// none.
    pub(crate) fn without(&self, group: Option<i64>) -> Option<u32>
        ensures { result ≡ key_without group self.now }
    {
        match group {
            Some(group) if group == self.group => self.other,
            _ => Some(self.first),
        }
    }
}

// The lesser of two keys.
fn lesser_key(a: u32, b: u32) -> u32
    ensures least { lesser_of nat_cmp (Some a) (Some b) ≡ Some result }
    ensures below { result ≤ a }
{
    if b < a { b } else { a }
}
