//! Checks the tests that a scanned row is to pass, in aggregates and in clauses of actions.
ghost use Rattle.std.specs.Prelude.{◌≡◌, [], IfOk, OnOk};
ghost use Rattle.sgl_types.specs.Findings.{noted};
ghost use Rattle.sgl_types.specs.Items.{row_faults, column_faults, test_faults};
ghost use Rattle.sgl_types.specs.Scope.{scope_of, scope_at};
ghost use Rattle.sgl_types.specs.TypedItems.{column, typed_test};

use crate::bodies::{Body, Site};
use crate::declared::attribute;
use crate::each::Check;
use crate::expressions::{check_dotted, check_wanted};
use crate::finding::{Finding, TypeKind, note_if, note_unless};
use crate::names::is_same;
use crate::statements::is_local;
use sgl_tree::{Name, Test};
use sgl_typed::{Attr, Kind, TTest};
use sgl_values::Memory;

/// Checks the name of a scanned row.
pub fn check_row(at: &Site<'_>, row: &Name, found: &mut Option<Finding>)
    ensures { found.new ≡ noted found.old (row_faults (scope_at at.now) row.now) }
{
    let is_twice = is_local(at.body, at.locals, &row.text);
    note_if(found, is_twice, TypeKind::Twice, row.place);
}

/// Checks the name of an attribute that is read of the scanned row.
fn check_column(body: &Body<'_>, name: &Name, found: &mut Option<Finding>) -> Result<Attr, Memory>
    ensures attr { IfOk result (λ a. a ≡ column (scope_of body.now []) name.now) }
    ensures found { OnOk result (found.new ≡ noted found.old (column_faults (scope_of body.now []) name.now)) }
{
    let stands_for = attribute(body.all, body.earlier, &name.text)?;
    Ok(check_dotted(found, stands_for, name.place))
}

impl Check for Test {
    type Made = TTest;

    ghost typed = { typed_test };

    ghost faults = { test_faults };

    #[tactic(auto, using(crate::proofs::Equations::joining))]
    fn check(&self, at: &Site<'_>, found: &mut Option<Finding>) -> Result<TTest, Memory> {
        match self {
            Test::Compare {
                row,
                attr,
                op,
                right,
            } => {
                let is_target = is_same(&row.text, at.body.target);
                note_unless(found, is_target, TypeKind::UnknownName, row.place);
                let attr = check_column(at.body, attr, found)?;
                let right = check_wanted(at, Kind::Numeric, right, found)?;
                Ok(TTest::Compare {
                    attr,
                    op: *op,
                    right,
                })
            }
            Test::Within { x, y, radius, .. } => {
                let x = check_column(at.body, x, found)?;
                let y = check_column(at.body, y, found)?;
                let radius = check_wanted(at, Kind::Numeric, radius, found)?;
                Ok(TTest::Within { x, y, radius })
            }
        }
    }
}
