//! Arguments and amounts of an effect, for all rows of a set.
ghost use Rattle.std.specs.Prelude.{◌≡◌, ◌<◌, ◌≤◌, ℕ, All, true, length, take, IfSome};
ghost use Rattle.sgl_lanes.specs.Lanes.{has, EachLane};
ghost use Rattle.sgl_lanes.specs.declared.kind.Lanes.TheVariants.{Numbers};
ghost use Rattle.task_scratch.specs.Scratch.{slots_in};
ghost use Rattle.plan_executor.specs.Clauses.{clause_frame, target_of, values_of, with_args, with_target, AreArgs, CanReadClause, GiveNumbers, GivesArg, GivesNumber, IsHeld};
ghost use Rattle.plan_executor.specs.Frames.{with_slots};
ghost use Rattle.plan_executor.specs.Running.{base_of, IsInside};

use crate::aiming::Aims;
use crate::clause_lanes::ClauseLanes;
use crate::row_set::with_row;
use crate::run::Run;
use crate::values::read_values;
use sgl_lanes::{LaneValues, Lanes, has_lane};
use sgl_typed::{TExpr, TWrite};
use sgl_values::{PARAMS_MAX, TASK_ROWS};
use task_scratch::SlotRows;

/// Reads the arguments of an effect into lanes, and tells whether all are known.
pub(crate) fn read_args(
    run: &Run,
    args: &[TExpr],
    mask: u64,
    rows: &SlotRows,
    lanes: &mut Vec<LaneValues>,
    spare: &mut [LaneValues],
) -> bool
    requires inside { IsInside run.now mask }
    requires rows { length rows.now ≡ TASK_ROWS }
    requires room { length args.now ≤ length lanes.old.items }
    ensures length { length lanes.new.items ≡ length lanes.old.items }
    ensures args { result ≡ true → AreArgs (base_of run.now) (slots_in rows.now) args.now mask (take (length args.now) lanes.new.items) }
{
    for number in 0..args.len() {
        read_values(run, &args[number], mask, rows, &mut lanes[number], spare);
        if !lanes[number].are_known() {
            return false;
        }
    }
    true
}

/// Whether each write gives one of so many arguments as it stands, and no two give the same, which would be read twice.
pub(crate) fn give_args(writes: &[TWrite], count: u32) -> bool
    requires { count ≤ PARAMS_MAX }
{
    let mut given = 0;
    for write in writes {
        match write.amount {
            TExpr::Slot(slot) if slot < count && write.by.is_none() && !has_lane(given, slot) => {
                given = with_row(given, slot);
            }
            _ => return false,
        }
    }
    true
}

// The argument that a write gives as it stands.
fn arg_of<'a>(write: &TWrite, args: &'a [TExpr]) -> Option<&'a TExpr>
    ensures { IfSome result (λ arg. GivesArg args.now write.now arg.now) }
{
    match &write.amount {
        TExpr::Slot(slot) if write.by.is_none() => args.get(*slot as usize),
        _ => None,
    }
}

// Whether lanes hold numbers.
fn are_numbers(lanes: &LaneValues) -> bool
    ensures { result ≡ true → lanes.now.kind ≡ Numbers }
{
    lanes.kind == Lanes::Numbers
}

// Reads the argument that a write gives as it stands into lanes, and tells whether it gives one, and all are numbers.
fn read_given(
    run: &Run,
    write: &TWrite,
    args: &[TExpr],
    mask: u64,
    rows: &SlotRows,
    lanes: &mut LaneValues,
    spare: &mut [LaneValues],
) -> bool
    requires inside { IsInside run.now mask }
    requires rows { length rows.now ≡ TASK_ROWS }
    ensures { result ≡ true → (k target : ℕ) → has mask k ≡ true
        → GivesNumber (with_target run.now.tick.world.now.world (with_slots (base_of run.now) (values_of (base_of run.now) (slots_in rows.now) args.now) k) target) target k write.now lanes.new }
{
    match arg_of(write, args) {
        Some(arg) => {
            read_values(run, arg, mask, rows, lanes, spare);
            are_numbers(lanes)
        }
        None => false,
    }
}

/// Reads the arguments that writes give as they stand into lanes, and tells whether each gives one, and all are numbers.
pub(crate) fn read_each_given(
    run: &Run,
    writes: &[TWrite],
    args: &[TExpr],
    mask: u64,
    rows: &SlotRows,
    amounts: &mut Vec<LaneValues>,
    spare: &mut [LaneValues],
) -> bool
    requires inside { IsInside run.now mask }
    requires rows { length rows.now ≡ TASK_ROWS }
    requires room { length writes.now ≤ length amounts.old.items }
    ensures length { length amounts.new.items ≡ length amounts.old.items }
    ensures numbers { result ≡ true → (k target : ℕ) → has mask k ≡ true
        → GiveNumbers (with_target run.now.tick.world.now.world (with_slots (base_of run.now) (values_of (base_of run.now) (slots_in rows.now) args.now) k) target) target k writes.now amounts.new.items }
{
    for number in 0..writes.len() {
        let lanes = &mut amounts[number];
        if !read_given(run, &writes[number], args, mask, rows, lanes, spare) {
            return false;
        }
    }
    true
}

// Reads the amount of a write into lanes, and tells whether all are numbers, and no priority is written.
fn read_amount(
    clause: &ClauseLanes,
    write: &TWrite,
    mask: u64,
    lanes: &mut LaneValues,
    spare: &mut [LaneValues],
) -> bool
    requires { EachLane mask (CanReadClause clause.now) }
    ensures { result ≡ true → (k : ℕ) → k < TASK_ROWS → has mask k ≡ true
        → GivesNumber (clause_frame clause.now k) (target_of clause.now.targets.now k) k write.now lanes.new }
{
    lanes.evaluate(clause, mask, &write.amount, spare);
    lanes.kind == Lanes::Numbers && write.by.is_none()
}

/// Reads the amounts of writes at the targets of rows into lanes, and tells whether all are numbers, and no priorities are
/// written.
pub(crate) fn read_amounts<'a>(
    run: &'a Run<'a>,
    writes: &[TWrite],
    args: &'a [LaneValues],
    aims: &'a Aims,
    amounts: &mut Vec<LaneValues>,
    spare: &mut [LaneValues],
) -> bool
    requires inside { IsInside run.now aims.now.aimed }
    requires held { (k : ℕ) → has aims.now.aimed k ≡ true → All (IsHeld k) args.now }
    requires targets { (k : ℕ) → has aims.now.aimed k ≡ true → target_of aims.now.targets k < length run.now.tick.world.now.world.rows }
    requires room { length writes.now ≤ length amounts.old.items }
    ensures length { length amounts.new.items ≡ length amounts.old.items }
    ensures numbers { result ≡ true → (k : ℕ) → has aims.now.aimed k ≡ true
        → GiveNumbers (with_target run.now.tick.world.now.world (with_args (base_of run.now) args.now k) (target_of aims.now.targets k)) (target_of aims.now.targets k) k writes.now amounts.new.items }
{
    let clause = ClauseLanes {
        run,
        args,
        targets: &aims.targets,
    };
    for number in 0..writes.len() {
        let lanes = &mut amounts[number];
        if !read_amount(&clause, &writes[number], aims.aimed, lanes, spare) {
            return false;
        }
    }
    true
}
