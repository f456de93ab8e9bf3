//! Checks the attribute that a write or an assignment goes to.
ghost use Rattle.std.specs.Prelude.{◌≡◌, IfOk, OnOk};
ghost use Rattle.sgl_types.specs.Findings.{noted};
ghost use Rattle.sgl_types.specs.Items.{tag_of_name};
ghost use Rattle.sgl_types.specs.Scope.{scope_at, attribute_of};
ghost use Rattle.sgl_types.specs.Targets.{target_number, target_faults};

use crate::bodies::Site;
use crate::declared::{AttrName, attribute, tag_of};
use crate::expressions::note_undeclared;
use crate::finding::{Finding, TypeKind, note};
use sgl_tree::Name;
use sgl_values::{Memory, Place, Tag};

/// What an amount or a value is put in.
#[derive(Clone, Copy, Debug, PartialEq, Eq)]
pub enum Target {
    /// An effect attribute, by a write.
    Effect,
    /// A const attribute, by an assignment.
    Const,
}

/// The attribute that a write or an assignment goes to: its number, or 0 where the name stands for none of the wanted
/// sort, and its tag where it is an effect attribute.
#[derive(Clone, Copy, Debug, PartialEq, Eq)]
pub struct Aim {
    pub number: u32,
    pub tag: Option<Tag>,
}

impl Target {
    /// Checks what a name stands for where an attribute of this sort is wanted, and answers its number.
    #[tactic(auto, using(crate::proofs::Equations::joining))]
    fn number_of(self, found: &mut Option<Finding>, name: AttrName, place: Place) -> u32
        ensures number { result ≡ target_number self name }
        ensures found { found.new ≡ noted found.old (target_faults self name place) }
    {
        note_undeclared(found, name, place);
        match (self, name) {
            (Target::Effect, AttrName::Effect(number)) => number,
            (Target::Const, AttrName::Const(number)) => number,
            (Target::Effect, AttrName::Key | AttrName::Const(_)) => {
                note(found, TypeKind::ConstWritten, place);
                0
            }
            (Target::Const, AttrName::Key | AttrName::Effect(_)) => {
                note(found, TypeKind::NotConstTarget, place);
                0
            }
            (_, AttrName::Later | AttrName::Unknown) => 0,
        }
    }

    /// Checks the name of the attribute that a write or an assignment goes to.
    pub fn check(
        self,
        at: &Site<'_>,
        attr: &Name,
        found: &mut Option<Finding>,
    ) -> Result<Aim, Memory>
        ensures number { let s = scope_at at.now in IfOk result (λ aim. aim.number ≡ target_number self (attribute_of s.all s.earlier attr.now.text)) }
        ensures tag { let s = scope_at at.now in IfOk result (λ aim. aim.tag ≡ tag_of_name s.earlier (attribute_of s.all s.earlier attr.now.text)) }
        ensures found { let s = scope_at at.now in OnOk result (found.new ≡ noted found.old (target_faults self (attribute_of s.all s.earlier attr.now.text) attr.now.place)) }
    {
        let name = attribute(at.body.all, at.body.earlier, &attr.text)?;
        let number = self.number_of(found, name, attr.place);
        let tag = tag_of(at.body.earlier, name);
        Ok(Aim { number, tag })
    }
}
