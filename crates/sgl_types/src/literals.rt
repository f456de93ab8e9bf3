//! Checks numbers with a sign: starting values of effect attributes, and what stands behind `else`.
ghost use Rattle.std.specs.Prelude.{◌≡◌};
ghost use Rattle.sgl_types.specs.Findings.{noted};
ghost use Rattle.sgl_types.specs.Items.{literal_faults, init_faults, else_faults};
ghost use Rattle.sgl_types.specs.Rules.{has_else as has_else_of};
ghost use Rattle.sgl_types.specs.TypedItems.{literal_number, literal_or_zero, otherwise_number};

use crate::expressions::check_number;
use crate::finding::{Finding, TypeKind, note_if, note_unless};
use sgl_tree::Literal;
use sgl_values::{FoldKind, Num, Place};

/// Checks a number with its sign. One out of range is 0.
pub fn check_literal(found: &mut Option<Finding>, literal: &Literal) -> Num
    ensures number { result ≡ literal_number literal.now }
    ensures found { found.new ≡ noted found.old (literal_faults literal.now) }
{
    let number = check_number(found, literal.value, literal.place);
    if literal.negative {
        number.negated()
    } else {
        number
    }
}

/// Checks the starting value of an effect attribute.
pub fn check_init(found: &mut Option<Finding>, init: &Option<Literal>) -> Num
    ensures number { result ≡ literal_or_zero init.now }
    ensures found { found.new ≡ noted found.old (init_faults init.now) }
{
    match init {
        None => Num::zero(),
        Some(literal) => check_literal(found, literal),
    }
}

fn has_else(kind: FoldKind) -> bool
    ensures { result ≡ has_else_of kind }
{
    match kind {
        FoldKind::Count | FoldKind::Sum => false,
        FoldKind::Min | FoldKind::Max | FoldKind::Lowest | FoldKind::Highest | FoldKind::Nearest =>
            true,
    }
}

/// Checks what stands behind `else`, and that it stands where it is wanted.
#[tactic(auto, using(crate::proofs::Equations::joining))]
pub fn check_else(
    found: &mut Option<Finding>,
    kind: FoldKind,
    place: Place,
    otherwise: &Option<(Place, Literal)>,
) -> Num
    ensures number { result ≡ otherwise_number otherwise.now }
    ensures found { found.new ≡ noted found.old (else_faults kind place otherwise.now) }
{
    match otherwise {
        None => {
            note_if(found, has_else(kind), TypeKind::ElseMissing, place);
            Num::zero()
        }
        Some((else_place, literal)) => {
            note_unless(found, has_else(kind), TypeKind::ElseUnwanted, *else_place);
            check_literal(found, literal)
        }
    }
}
