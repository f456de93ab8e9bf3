//! Checks the parts of a body that stand in lists of one sort, as tests, writes and assignments, or may be left out.
ghost use Rattle.std.specs.Prelude.{◌≡◌, [], map, flat_map, IfOk, OnOk};
ghost use Rattle.std.specs.Option.{option_map, option_map_or};
ghost use Rattle.sgl_types.specs.Findings.{noted};
ghost use Rattle.sgl_types.specs.Scope.{scope_at};

use crate::bodies::Site;
use crate::finding::Finding;
use sgl_values::{List, Memory};

/// A part of a body, as a test or a write.
pub trait Check {
    ghost use Rattle.std.specs.Prelude.{◌≡◌, List, IfOk, OnOk};
    ghost use Rattle.sgl_types.specs.declared.finding.Finding.{Finding};
    ghost use Rattle.sgl_types.specs.Findings.{noted};
    ghost use Rattle.sgl_types.specs.Scope.{Scope, scope_at};

    /// What it is resolved to.
    type Made: Drop;

    /// What it is resolved to where it stands.
    ghost typed: { Scope → Self → Self.Made };

    /// The rules that it breaks where it stands.
    ghost faults: { Scope → Self → List Finding };

    /// Checks it, and resolves its names.
    fn check(&self, at: &Site<'_>, found: &mut Option<Finding>) -> Result<Self::Made, Memory>
        ensures made { IfOk result (λ m. m ≡ typed (scope_at at.now) self.now) }
        ensures found { OnOk result (found.new ≡ noted found.old (faults (scope_at at.now) self.now)) };
}

/// Checks parts of one sort, each by itself.
pub fn check_each<T: Check>(
    at: &Site<'_>,
    parts: &[T],
    found: &mut Option<Finding>,
) -> Result<List<T::Made>, Memory>
    ensures made { IfOk result (λ ms. ms ≡ map (T.typed (scope_at at.now)) parts.now) }
    ensures found { OnOk result (found.new ≡ noted found.old (flat_map (T.faults (scope_at at.now)) parts.now)) }
{
    let mut made = List::new(at.alloc);
    for part in parts {
        made.push(part.check(at, found)?)?;
    }
    Ok(made)
}

/// Checks a part that may be left out.
pub fn check_given<T: Check>(
    at: &Site<'_>,
    part: &Option<T>,
    found: &mut Option<Finding>,
) -> Result<Option<T::Made>, Memory>
    ensures made { IfOk result (λ m. m ≡ option_map (T.typed (scope_at at.now)) part.now) }
    ensures found { OnOk result (found.new ≡ noted found.old (option_map_or (T.faults (scope_at at.now)) part.now [])) }
{
    match part {
        None => Ok(None),
        Some(part) => {
            let made = part.check(at, found)?;
            Ok(Some(made))
        }
    }
}
