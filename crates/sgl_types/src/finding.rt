//! The kinds of broken type rules, and the first of what was found, by place and kind.
ghost use Rattle.std.specs.Prelude.{◌≡◌, ◌∷◌, []};
ghost use Rattle.sgl_types.specs.Findings.{is_before as is_rank_before, noted, finding};
ghost use Rattle.sgl_types.specs.Rules.{fault_if, fault_unless};

use sgl_values::Place;

/// What breaks a type rule.
#[derive(Clone, Copy, Debug, PartialEq, Eq)]
pub enum TypeKind {
    UnknownName,
    UsedBeforeDefined,
    Twice,
    WrongCount,
    WantsNumber,
    WantsTruth,
    EffectRead,
    ConstWritten,
    NotConstTarget,
    NoMain,
    TwoMains,
    ElseMissing,
    ElseUnwanted,
    LiteralRange,
    TooMany,
    ByMissing,
    ByUnwanted,
}

/// A broken type rule and its place.
#[derive(Clone, Copy, Debug, PartialEq, Eq)]
pub struct Finding {
    pub kind: TypeKind,
    pub place: Place,
}

impl Finding {
    /// Whether this one stands before the other: by place, and at one place by kind.
    pub fn is_before(self, other: Finding) -> bool
        ensures { result ≡ is_rank_before self other }
    {
        self.place.line < other.place.line
            || (self.place.line == other.place.line
                && (self.place.col < other.place.col
                    || (self.place.col == other.place.col
                        && (self.kind as u8) < (other.kind as u8))))
    }
}

/// Keeps the first of what was found.
pub fn note(found: &mut Option<Finding>, kind: TypeKind, place: Place)
    ensures { found.new ≡ noted found.old (finding kind place ∷ []) }
{
    let finding = Finding { kind, place };
    match *found {
        None => *found = Some(finding),
        Some(first) => {
            if finding.is_before(first) {
                *found = Some(finding);
            }
        }
    }
}

/// Notes a fault where something does not hold.
pub fn note_unless(found: &mut Option<Finding>, holds: bool, kind: TypeKind, place: Place)
    ensures { found.new ≡ noted found.old (fault_unless holds kind place) }
{
    if !holds {
        note(found, kind, place);
    }
}

/// Notes a fault where something holds.
pub fn note_if(found: &mut Option<Finding>, holds: bool, kind: TypeKind, place: Place)
    ensures { found.new ≡ noted found.old (fault_if holds kind place) }
{
    if holds {
        note(found, kind, place);
    }
}
