//! The rows that a clause goes to by a key alone, for all rows of a set.
ghost use Rattle.std.specs.Prelude.{◌≡◌, ◌≢◌, ◌<◌, ◌+◌, ℕ, pos, true, false, All, length, IfNone, IfSome};
ghost use Rattle.sgl_values.specs.World.{row_at};
ghost use Rattle.sgl_lanes.specs.Lanes.{has, lane_of};
ghost use Rattle.plan_executor.specs.Clauses.{with_args, target_of, AimsBy, AimsElse, AreAims, IsHeld};
ghost use Rattle.plan_executor.specs.Own.{AreOwn};
ghost use Rattle.plan_executor.specs.Running.{base_of, IsInside};

use crate::clause_lanes::ClauseLanes;
use crate::row_set::with_row;
use crate::run::Run;
use battle_algebra::is_own_key;
use sgl_lanes::{LANES, LaneValues, Lanes, has_lane, number_at};
use sgl_typed::TExpr;
use sgl_values::{Num, TASK_ROWS};

/// The rows of a set that have a target, and their targets.
#[derive(Clone, Copy)]
pub(crate) struct Aims {
    pub aimed: u64,
    pub targets: [u32; LANES],
}

impl Aims {
    /// No row has a target.
    pub(crate) fn none() -> Aims {
        Aims {
            aimed: 0,
            targets: [0; LANES],
        }
    }
}

// The row with this key, which often is that of the acting unit.
fn row_with(run: &Run, row: u32, key: Num) -> Option<u32>
    requires { run.now.first + row < length run.now.tick.world.now.world.rows }
    ensures within { IfSome result (λ target. target < length run.now.tick.world.now.world.rows) }
    ensures found { IfSome result (λ target. pos (row_at run.now.tick.world.now.world target).key ≡ key) }
    ensures missing { IfNone result (All (λ other. pos other.key ≢ key) run.now.tick.world.now.world.rows) }
{
    let _ = run.tick.world.len();
    let own = run.unit_row(row);
    if Num::whole(run.tick.world.key(own)) == key {
        return Some(own);
    }
    match u32::try_from(key.get()) {
        Err(_) => None,
        Ok(key) => run.tick.world.find(key),
    }
}

/// The rows of a task from its first one on, a lane each.
pub(crate) fn own_rows(first: u32) -> [u32; LANES]
    ensures { AreOwn first 4294967296 result }
{
    let mut rows = [0; LANES];
    for row in 0_u32..64 {
        rows[row as usize] = first.saturating_add(row);
    }
    rows
}

// Aims a row at the one with this key.
fn aim_row(run: &Run, row: u32, key: Num, aims: &mut Aims)
    requires below { row < TASK_ROWS }
    requires row { run.now.first + row < length run.now.tick.world.now.world.rows }
    requires fresh { has aims.old.aimed row ≡ false }
    ensures own { AimsBy run.now.tick.world.now.world key row aims.new }
    ensures other { AimsElse row aims.old aims.new }
{
    if let Some(target) = row_with(run, row, key) {
        aims.targets[row as usize] = target;
        aims.aimed = with_row(aims.aimed, row);
    }
}

// Aims the rows of a set, by the keys in its lanes.
fn aim_rows(run: &Run, mask: u64, keys: &[Num; LANES], aims: &mut Aims)
    requires inside { IsInside run.now mask }
    ensures part { (row : ℕ) → has aims.new.aimed row ≡ true → has mask row ≡ true }
    ensures aims { (row : ℕ) → has mask row ≡ true → AimsBy run.now.tick.world.now.world (lane_of keys.now row) row aims.new }
{
    aims.aimed = 0;
    for row in 0..64 {
        if has_lane(mask, row) {
            aim_row(run, row, number_at(keys, row), aims);
        }
    }
}

// Aims the rows of a set, with these arguments, by the keys that an expression gives, and tells whether all are known.
fn seek<'a>(
    run: &'a Run<'a>,
    right: &TExpr,
    mask: u64,
    args: &'a [LaneValues],
    aims: &mut Aims,
    spare: &mut [LaneValues],
) -> bool
    requires inside { IsInside run.now mask }
    requires held { (k : ℕ) → has mask k ≡ true → All (IsHeld k) args.now }
    requires own { (row : ℕ) → row < TASK_ROWS → run.now.first + row < length run.now.tick.world.now.world.rows → target_of aims.old.targets row ≡ run.now.first + row }
    ensures { result ≡ true → AreAims run.now.tick.world.now.world (with_args (base_of run.now) args.now) right.now mask aims.new }
{
    let mut keys = LaneValues::unknown();
    let clause = ClauseLanes {
        run: &*run,
        args: &*args,
        targets: &aims.targets,
    };
    keys.evaluate(&clause, mask, right, spare);
    match keys.kind {
        Lanes::Numbers => {
            aim_rows(run, mask, &keys.numbers, aims);
            true
        }
        _ => false,
    }
}

/// Aims the rows of a set, with these arguments, and tells whether all keys that they ask for are known: each goes to the row
/// with the key that the expression gives, which is itself where that is its own.
pub(crate) fn aim_each<'a>(
    run: &'a Run<'a>,
    right: &TExpr,
    mask: u64,
    args: &'a [LaneValues],
    aims: &mut Aims,
    spare: &mut [LaneValues],
) -> bool
    requires inside { IsInside run.now mask }
    requires held { (k : ℕ) → has mask k ≡ true → All (IsHeld k) args.now }
    ensures { result ≡ true → AreAims run.now.tick.world.now.world (with_args (base_of run.now) args.now) right.now mask aims.new }
{
    aims.targets = *run.own;
    if is_own_key(right) {
        aims.aimed = mask;
        return true;
    }
    seek(run, right, mask, args, aims, spare)
}
