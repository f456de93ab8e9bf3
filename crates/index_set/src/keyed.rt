//! The one row with a key, where tests ask for a key.
ghost use Rattle.std.specs.Prelude.{◌≡◌, ◌≢◌, ◌<◌, ◌&&◌, ◌==◌, pos, All, Some, filter, length, IfNone, IfSome, [], ◌∷◌};
ghost use Rattle.std.specs.Option.{ForSome};
ghost use Rattle.sgl_values.specs.World.{Row, row_at};
ghost use Rattle.key_table.specs.Keys.{keys_of};
ghost use Rattle.sgl_typed.specs.Aggregate.{made};
ghost use Rattle.sgl_evaluate.specs.Frame.{context_of, IsFrame};
ghost use Rattle.sgl_evaluate.specs.Rights.{AreRights, right_of, passes_each};
ghost use Rattle.battle_algebra.specs.Ways.{number_of};
ghost use Rattle.index_set.specs.Aims.{rows_of};
ghost use Rattle.index_set.specs.Targets.{passing_rows};
ghost use Rattle.index_set.specs.Keyed.{is_key_test as tests_key_by, key_asked as asked_by, rows_in};

use battle_algebra::{attr_of, is_equal_test};
use env_table::World;
use key_table::KeyTable;
use sgl_evaluate::{Frame, Rights, attribute_of, fold_rows, passes, placed};
use sgl_typed::{Attr, TAgg, TTest};
use sgl_values::{FoldKind, Num, Val, bounded};

/// Whether a test is that the key equals a value.
pub(crate) fn is_key_test(test: &TTest) -> bool
    ensures { result ≡ tests_key_by test.now }
{
    is_equal_test(test) && is_key(attr_of(test))
}

fn is_key(attr: Attr) -> bool
    ensures { result ≡ (number_of attr == 0) }
{
    match attr {
        Attr::Key => true,
        Attr::Const(_) => false,
    }
}

/// The right side of the first test that the key equals it.
pub(crate) fn key_asked(frame: &Frame, tests: &[TTest], rights: &Rights) -> Option<Num>
    requires frame { IsFrame frame.now }
    requires rights { AreRights (context_of frame.now) tests.now rights.now }
    ensures { result ≡ asked_by (right_of (context_of frame.now)) tests.now }
{
    for number in 0..tests.len() {
        if is_key_test(&tests[number]) {
            return Some(rights.at(frame, tests, number));
        }
    }
    None
}

/// The row with this key.
pub(crate) fn row_with(world: &World, keys: &KeyTable, key: Num) -> Option<u32>
    requires { keys.now ≡ keys_of world.now.world }
    ensures within { IfSome result (λ row. row < length world.now.world.rows) }
    ensures found { IfSome result (λ row. pos (row_at world.now.world row).key ≡ key) }
    ensures missing { IfNone result (All (λ row. pos row.key ≢ key) world.now.world.rows) }
{
    let _ = world.len();
    match u32::try_from(key.get()) {
        Err(_) => None,
        Ok(key) => keys.find(world, key),
    }
}

/// What the fold of an aggregate makes of the rows that pass, behind right sides without a fault: of the one row with the key
/// that its tests ask for, or by a scan where they ask for none.
pub(crate) fn keyed(frame: &Frame, agg: &TAgg, rights: &Rights, keys: &KeyTable) -> Val
    requires frame { IsFrame frame.now }
    requires rights { AreRights (context_of frame.now) agg.now.tests rights.now }
    requires keys { keys.now ≡ keys_of frame.now.tick.world.now.world }
    ensures { result ≡ made agg.now.kind agg.now (context_of frame.now).unit (filter (passes_each (context_of frame.now) agg.now.tests) frame.now.tick.world.now.world.rows) }
{
    let tests = agg.tests.as_slice();
    match key_asked(frame, tests, rights) {
        None => fold_rows(agg, frame, rights),
        Some(key) => fold_row(frame, agg, keyed_row(frame, tests, rights, keys, key)),
    }
}

/// The row that passes all tests, where they ask for a key.
pub(crate) fn keyed_row(
    frame: &Frame,
    tests: &[TTest],
    rights: &Rights,
    keys: &KeyTable,
    key: Num,
) -> Option<u32>
    requires frame { IsFrame frame.now }
    requires rights { AreRights (context_of frame.now) tests.now rights.now }
    requires keys { keys.now ≡ keys_of frame.now.tick.world.now.world }
    requires key { asked_by (right_of (context_of frame.now)) tests.now ≡ Some key }
    ensures within { IfSome result (λ row. row < length frame.now.tick.world.now.world.rows) }
    ensures rows { rows_in frame.now.tick.world.now.world result ≡ filter (passes_each (context_of frame.now) tests.now) frame.now.tick.world.now.world.rows }
    ensures numbers { passing_rows (context_of frame.now) tests.now ≡ rows_of result }
{
    let _ = frame.tick.world.len();
    match row_with(frame.tick.world, keys, key) {
        None => None,
        Some(row) => passing(frame, tests, rights, row),
    }
}

fn passing(frame: &Frame, tests: &[TTest], rights: &Rights, row: u32) -> Option<u32>
    requires frame { IsFrame frame.now }
    requires rights { AreRights (context_of frame.now) tests.now rights.now }
    requires row { row < length frame.now.tick.world.now.world.rows }
    ensures within { IfSome result (λ row. row < length frame.now.tick.world.now.world.rows) }
    ensures rows { rows_in frame.now.tick.world.now.world result ≡ filter (passes_each (context_of frame.now) tests.now) (row_at frame.now.tick.world.now.world row ∷ []) }
    ensures numbers { rows_of result ≡ filter (λ number. passes_each (context_of frame.now) tests.now (row_at frame.now.tick.world.now.world number)) (row ∷ []) }
{
    if passes(frame, tests, rights, row) {
        Some(row)
    } else {
        None
    }
}

// What the aggregate makes of one row or none.
fn fold_row(frame: &Frame, agg: &TAgg, row: Option<u32>) -> Val
    requires { ForSome row (λ row. row < length frame.now.tick.world.now.world.rows) }
    ensures { result ≡ made agg.now.kind agg.now (context_of frame.now).unit (rows_in frame.now.tick.world.now.world row) }
{
    match row {
        None => fold_none(agg),
        Some(row) => fold_one(frame, agg, row),
    }
}

fn fold_none(agg: &TAgg) -> Val
    ensures { (unit : Row) → result ≡ made agg.now.kind agg.now unit [] }
{
    match agg.kind {
        FoldKind::Count => Val::N(Num::zero()),
        FoldKind::Sum => Val::N(Num::zero()),
        FoldKind::Min => Val::N(agg.otherwise),
        FoldKind::Max => Val::N(agg.otherwise),
        FoldKind::Lowest => Val::N(agg.otherwise),
        FoldKind::Highest => Val::N(agg.otherwise),
        FoldKind::Nearest => Val::N(agg.otherwise),
    }
}

fn fold_one(frame: &Frame, agg: &TAgg, row: u32) -> Val
    requires { row < length frame.now.tick.world.now.world.rows }
    ensures { result ≡ made agg.now.kind agg.now (context_of frame.now).unit (row_at frame.now.tick.world.now.world row ∷ []) }
{
    match agg.kind {
        FoldKind::Count => Val::N(Num::whole(1)),
        FoldKind::Sum => placed(
            agg.place,
            bounded(attribute_of(frame.tick.world, row, agg.attr).get()),
        ),
        FoldKind::Min => Val::N(attribute_of(frame.tick.world, row, agg.attr)),
        FoldKind::Max => Val::N(attribute_of(frame.tick.world, row, agg.attr)),
        FoldKind::Lowest => Val::N(attribute_of(frame.tick.world, row, Attr::Key)),
        FoldKind::Highest => Val::N(attribute_of(frame.tick.world, row, Attr::Key)),
        FoldKind::Nearest => Val::N(attribute_of(frame.tick.world, row, Attr::Key)),
    }
}
