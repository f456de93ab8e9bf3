//! What the expressions of a body may name: its locals, what stands before its item, and its rows.
ghost use Rattle.std.specs.Prelude.{◌≡◌};
ghost use Rattle.std.specs.Option.{option_copied};
ghost use Rattle.sgl_types.specs.Scope.{find_local};

use crate::declared::Declared;
use crate::table::{Named, Table};
use sgl_typed::Kind;
use sgl_values::Text;
use std::alloc::Global;

/// A parameter or a let in scope.
#[derive(Debug, Drop)]
pub struct Local {
    pub name: Text,
    pub slot: u32,
    pub kind: Kind,
}

impl Named for Local {
    ghost name_of = { λ local. local.name };

    fn name(&self) -> &Text {
        &self.name
    }
}

/// The parameters and lets in scope, in the order of the text.
pub type Locals = Table<Local>;

/// The local of this name, where there is one.
pub fn find_local<'l>(locals: &'l Locals, name: &Text) -> Option<&'l Local>
    ensures { option_copied result ≡ find_local name.now locals.now }
{
    match locals.position(name) {
        None => None,
        Some(at) => locals.get(at),
    }
}

/// Where an expression stands.
#[derive(Clone, Copy, Debug, PartialEq, Eq)]
pub enum Part {
    /// In statements of `main` or of a routine.
    Statements,
    /// On the right side of a test, or as the radius of one.
    Test,
    /// As the amount or the priority of a write.
    Amount,
    /// In `post`, `spawn when` and `remove when` included.
    Post,
}

/// What the expressions of one body may name, but for its locals: what the script declares, what the items before this
/// one declare, the unit's name and the scanned row's.
#[derive(Clone, Copy)]
pub struct Body<'t> {
    pub all: &'t Declared,
    pub earlier: &'t Declared,
    pub part: Part,
    pub unit: &'t str,
    pub target: &'t str,
}

/// Where a part of a body is checked: the body, and the locals in scope.
#[derive(Clone, Copy)]
pub struct Site<'t> {
    pub alloc: Global,
    pub body: &'t Body<'t>,
    pub locals: &'t Locals,
}

/// Where an item stands: what the script declares, what the items before it declare, and the number of their slots.
#[derive(Clone, Copy)]
pub struct Context<'t> {
    pub alloc: Global,
    pub all: &'t Declared,
    pub earlier: &'t Declared,
    pub slots: u32,
}
