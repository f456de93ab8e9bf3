//! What ways, broken type rules and faults are called.
ghost use Rattle.std.specs.Prelude.{◌≡◌, ◌≤◌, length};
ghost use Rattle.battle_report.specs.FaultLines.{fault_words, kind_words};
ghost use Rattle.battle_report.specs.PlanLines.{effect_way_word, way_word};

use battle_algebra::{EffectWay, Way};
use sgl_types::TypeKind;
use sgl_values::ArithFault;

/// What the way of an aggregate is called.
pub(crate) fn way_word(way: Way) -> &'static [u8]
    ensures word { result.now ≡ way_word way }
    ensures length { length result.now ≤ 20 }
{
    match way {
        Way::Scan => b"scan",
        Way::Key => b"key",
        Way::Range => b"range",
        Way::Sweep => b"sweep",
        Way::Nearest => b"nearest",
        Way::Circle => b"circle",
    }
}

/// What the way of an effect is called.
pub(crate) fn effect_way_word(way: EffectWay) -> &'static [u8]
    ensures word { result.now ≡ effect_way_word way }
    ensures length { length result.now ≤ 20 }
{
    match way {
        EffectWay::Scan => b"scan",
        EffectWay::Key => b"key",
        EffectWay::Slab => b"slab",
        EffectWay::Area => b"area",
    }
}

/// What a broken type rule is called, up to its place.
pub(crate) fn kind_words(kind: TypeKind) -> &'static [u8]
    ensures words { result.now ≡ kind_words kind }
    ensures length { length result.now ≤ 100 }
{
    match kind {
        TypeKind::UnknownName => b"script: unknown name at ",
        TypeKind::UsedBeforeDefined => b"script: used before defined at ",
        TypeKind::Twice => b"script: twice at ",
        TypeKind::WrongCount => b"script: wrong count at ",
        TypeKind::WantsNumber => b"script: wants number at ",
        TypeKind::WantsTruth => b"script: wants truth at ",
        TypeKind::EffectRead => b"script: effect read at ",
        TypeKind::ConstWritten => b"script: const written at ",
        TypeKind::NotConstTarget => b"script: not const target at ",
        TypeKind::NoMain => b"script: no main at ",
        TypeKind::TwoMains => b"script: two mains at ",
        TypeKind::ElseMissing => b"script: else missing at ",
        TypeKind::ElseUnwanted => b"script: else unwanted at ",
        TypeKind::LiteralRange => b"script: literal range at ",
        TypeKind::TooMany => b"script: too many at ",
        TypeKind::ByMissing => b"script: by missing at ",
        TypeKind::ByUnwanted => b"script: by unwanted at ",
    }
}

/// What a fault of arithmetic is called.
pub(crate) fn fault_words(kind: ArithFault) -> &'static [u8]
    ensures words { result.now ≡ fault_words kind }
    ensures length { length result.now ≤ 20 }
{
    match kind {
        ArithFault::Overflow => b"overflow",
        ArithFault::ZeroDivisor => b"zero divisor",
        ArithFault::Priority => b"priority",
    }
}
