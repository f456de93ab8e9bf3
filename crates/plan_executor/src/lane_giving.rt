//! The items of an effect that goes by a key alone, for all rows of a set side by side.
ghost use Rattle.std.specs.Prelude.{◌≡◌, ◌<◌, ◌≤◌, ◌+◌, ◌∷◌, [], ◌*◌, ℕ, true, false, All, Some, length, flat_map, slice_get, IfSome};
ghost use Rattle.sgl_typed.specs.Items.{writes as writes_of};
ghost use Rattle.sgl_typed.specs.Value.{Context};
ghost use Rattle.sgl_typed.specs.declared.script.Attr.TheVariants.{Key};
ghost use Rattle.sgl_typed.specs.declared.script.TExpr.TheVariants.{Unit as OfUnit};
ghost use Rattle.sgl_typed.specs.declared.script.TTest.TheVariants.{Compare};
ghost use Rattle.sgl_values.specs.declared.operator.CmpOp.TheVariants.{Eq};
ghost use Rattle.sgl_values.specs.declared.item.Item.TheVariants.{Effect};
ghost use Rattle.battle_algebra.specs.Meaning.{clause_of, effects};
ghost use Rattle.task_scratch.specs.Scratch.{slots_in};
ghost use Rattle.plan_executor.specs.Clauses.{aims_of, columns, target_of, with_args, with_target, AreAims, GiveBy, GiveNumbers, IsHeld};
ghost use Rattle.sgl_lanes.specs.Lanes.{has};
ghost use Rattle.plan_executor.specs.Frames.{frames, members, Slots};
ghost use Rattle.plan_executor.specs.Rooms.{HasBuffers, KeepsRows};
ghost use Rattle.plan_executor.specs.Running.{base_of, CanRun, IsInside};
ghost use Rattle.plan_executor.specs.Sinking.{bounds_of, state_of, IsReady, Pushes};
ghost use Rattle.battle_algebra.specs.declared.plan.EffectUse.{EffectUse as EffectUseOf};

use crate::aiming::{Aims, aim_each};
use crate::amounts::{give_args, read_amounts, read_args, read_each_given};
use crate::reach::count_rows;
use crate::run::Run;
use crate::writing::push_amount;
use battle_algebra::{EffectUse, clause_at, is_own_key, sole_key};
use effect_board::Seat;
use sgl_lanes::{LANES, LaneValues, has_lane, number_at};
use sgl_typed::{TExpr, TOn, TWrite};
use sgl_values::{Amount, EFFECTS_MAX, PARAMS_MAX, TASK_ROWS};
use task_scratch::{Room, Sink, SlotRows};

/// The writes of an effect for the rows of a set, which are aimed, with the amounts in lanes; `None` where it goes not by a
/// key alone, or where faults may be among its values.
pub(crate) fn gift_of<'a>(
    run: &Run<'a>,
    act: &EffectUse,
    mask: u64,
    room: &mut Room,
    aims: &mut Aims,
) -> Option<&'a [TWrite]>
    requires buffers { HasBuffers room.old }
    requires inside { IsInside run.now mask }
    ensures buffers { HasBuffers room.new }
    ensures same { KeepsRows room.old room.new }
    ensures gift { IfSome result (λ writes. GiveBy run.now (slots_in room.old.rows) act.now mask writes.now aims.new room.new.amounts.items) }
{
    let clause = clause_at(run.tick.script, act)?;
    let (lanes, amounts) = (&mut room.arg_lanes, &mut room.amounts);
    let (rows, spare) = (&room.rows, room.spare.as_mut_slice());
    gift_in(run, act, clause, mask, rows, lanes, amounts, aims, spare)
}

// The same of a clause, by the arguments of the effect in lanes.
fn gift_in<'a>(
    run: &Run,
    act: &EffectUse,
    clause: &'a TOn,
    mask: u64,
    rows: &SlotRows,
    lanes: &mut Vec<LaneValues>,
    amounts: &mut Vec<LaneValues>,
    aims: &mut Aims,
    spare: &mut [LaneValues],
) -> Option<&'a [TWrite]>
    requires inside { IsInside run.now mask }
    requires rows { length rows.now ≡ TASK_ROWS }
    requires lanes { length lanes.old.items ≡ PARAMS_MAX }
    requires amounts { length amounts.old.items ≡ EFFECTS_MAX }
    requires clause { Some clause.now ≡ clause_of (slice_get run.now.tick.script.now.actions act.now.action) act.now.clause }
    ensures lanes { length lanes.new.items ≡ PARAMS_MAX }
    ensures amounts { length amounts.new.items ≡ EFFECTS_MAX }
    ensures gift { IfSome result (λ writes. GiveBy run.now (slots_in rows.now) act.now mask writes.now aims.new amounts.new.items) }
{
    let _ = run.tick.world.len();
    let key = sole_key(clause.tests.as_slice())?;
    let count = act.args.len();
    if count > PARAMS_MAX || clause.writes.len() > EFFECTS_MAX {
        return None;
    }
    if read_args(run, act.args.as_slice(), mask, rows, lanes, &mut *spare) {
        gift_at(
            run,
            clause,
            key,
            mask,
            &lanes[..count],
            amounts,
            aims,
            spare,
        )
    } else {
        None
    }
}

// The same where its only test is that the key equals this expression.
fn gift_at<'a>(
    run: &Run,
    clause: &'a TOn,
    key: &TExpr,
    mask: u64,
    args: &[LaneValues],
    amounts: &mut Vec<LaneValues>,
    aims: &mut Aims,
    spare: &mut [LaneValues],
) -> Option<&'a [TWrite]>
    requires inside { IsInside run.now mask }
    requires held { (k : ℕ) → has mask k ≡ true → All (IsHeld k) args.now }
    requires room { length clause.now.writes ≤ length amounts.old.items }
    ensures length { length amounts.new.items ≡ length amounts.old.items }
    ensures writes { IfSome result (λ writes. writes.now ≡ clause.now.writes) }
    ensures aims { IfSome result (λ writes. AreAims run.now.tick.world.now.world (with_args (base_of run.now) args.now) key.now mask aims.new) }
    ensures numbers { IfSome result (λ writes. (k : ℕ) → has aims.new.aimed k ≡ true
        → GiveNumbers (with_target run.now.tick.world.now.world (with_args (base_of run.now) args.now k) (target_of aims.new.targets k)) (target_of aims.new.targets k) k clause.now.writes amounts.new.items) }
{
    let writes = clause.writes.as_slice();
    if aim_each(run, key, mask, args, aims, &mut *spare)
        && read_amounts(run, writes, args, &*aims, amounts, spare)
    {
        Some(writes)
    } else {
        None
    }
}

/// The same where each row goes to itself and gives arguments as they stand: no argument is read but these, each straight into
/// the lanes of its write.
pub(crate) fn own_gift_of<'a>(
    run: &Run<'a>,
    act: &EffectUse,
    mask: u64,
    room: &mut Room,
) -> Option<&'a [TWrite]>
    requires buffers { HasBuffers room.old }
    requires inside { IsInside run.now mask }
    ensures buffers { HasBuffers room.new }
    ensures same { KeepsRows room.old room.new }
    ensures gift { IfSome result (λ writes. GiveBy run.now (slots_in room.old.rows) act.now mask writes.now (aims_of mask run.now.own.now) room.new.amounts.items) }
{
    let clause = clause_at(run.tick.script, act)?;
    let (rows, spare) = (&room.rows, room.spare.as_mut_slice());
    own_gift_in(run, act, clause, mask, rows, &mut room.amounts, spare)
}

// The same of a clause.
fn own_gift_in<'a>(
    run: &Run,
    act: &EffectUse,
    clause: &'a TOn,
    mask: u64,
    rows: &SlotRows,
    amounts: &mut Vec<LaneValues>,
    spare: &mut [LaneValues],
) -> Option<&'a [TWrite]>
    requires inside { IsInside run.now mask }
    requires rows { length rows.now ≡ TASK_ROWS }
    requires amounts { length amounts.old.items ≡ EFFECTS_MAX }
    requires clause { Some clause.now ≡ clause_of (slice_get run.now.tick.script.now.actions act.now.action) act.now.clause }
    ensures amounts { length amounts.new.items ≡ EFFECTS_MAX }
    ensures gift { IfSome result (λ writes. GiveBy run.now (slots_in rows.now) act.now mask writes.now (aims_of mask run.now.own.now) amounts.new.items) }
{
    let key = sole_key(clause.tests.as_slice())?;
    let count = act.args.len();
    if count > PARAMS_MAX || clause.writes.len() > EFFECTS_MAX {
        return None;
    }
    let writes = clause.writes.as_slice();
    if gives_own(key, writes, count as u32) {
        own_gift(run, act, clause, mask, rows, amounts, spare)
    } else {
        None
    }
}

// The same where it is known that they do.
fn own_gift<'a>(
    run: &Run,
    act: &EffectUse,
    clause: &'a TOn,
    mask: u64,
    rows: &SlotRows,
    amounts: &mut Vec<LaneValues>,
    spare: &mut [LaneValues],
) -> Option<&'a [TWrite]>
    requires inside { IsInside run.now mask }
    requires rows { length rows.now ≡ TASK_ROWS }
    requires room { length clause.now.writes ≤ length amounts.old.items }
    requires sole { clause.now.tests ≡ Compare Key Eq (OfUnit Key) ∷ [] }
    requires clause { Some clause.now ≡ clause_of (slice_get run.now.tick.script.now.actions act.now.action) act.now.clause }
    ensures length { length amounts.new.items ≡ length amounts.old.items }
    ensures gift { IfSome result (λ writes. GiveBy run.now (slots_in rows.now) act.now mask writes.now (aims_of mask run.now.own.now) amounts.new.items) }
{
    let _ = run.tick.world.len();
    let (writes, args) = (clause.writes.as_slice(), act.args.as_slice());
    if read_each_given(run, writes, args, mask, rows, amounts, spare) {
        Some(writes)
    } else {
        None
    }
}

// Whether each row goes to itself and gives arguments as they stand.
fn gives_own(key: &TExpr, writes: &[TWrite], count: u32) -> bool
    requires { count ≤ PARAMS_MAX }
    ensures { result ≡ true → key.now ≡ OfUnit Key }
{
    is_own_key(key) && give_args(writes, count)
}

// The writes of a row at its target.
fn give_row(
    run: &Run,
    writes: &[TWrite],
    target: u32,
    row: u32,
    amounts: &[LaneValues],
    seat: &mut Seat,
    sink: &mut Sink,
)
    requires can { CanRun run.now }
    requires target { target < length run.now.tick.world.now.world.rows }
    requires below { row < TASK_ROWS }
    requires room { length writes.now ≤ length amounts.now }
    requires ready { IsReady run.now.out.board.now seat.old sink.old.batch }
    ensures ready { IsReady run.now.out.board.now seat.new sink.new.batch }
    ensures pushes { (c : Context) → GiveNumbers c target row writes.now amounts.now
        → Pushes (bounds_of run.now.out) (state_of sink.old seat.old) (state_of sink.new seat.new) (writes_of c target writes.now) }
{
    for number in 0..writes.len() {
        let amount = Amount::plain(number_at(&amounts[number].numbers, row));
        let attr = writes[number].effect;
        push_amount::<true>(run.tick.script, target, attr, amount, &run.out, seat, sink);
    }
}

// Gives for the rows of a set, row by row.
fn give_each(
    run: &Run,
    writes: &[TWrite],
    aimed: u64,
    targets: &[u32; LANES],
    amounts: &[LaneValues],
    seat: &mut Seat,
    sink: &mut Sink,
)
    requires can { CanRun run.now }
    requires targets { (row : ℕ) → has aimed row ≡ true → target_of targets.now row < length run.now.tick.world.now.world.rows }
    requires room { length writes.now ≤ length amounts.now }
    requires ready { IsReady run.now.out.board.now seat.old sink.old.batch }
    ensures ready { IsReady run.now.out.board.now seat.new sink.new.batch }
    ensures pushes { (slots : Slots) (act : EffectUseOf) (mask : ℕ) → IsInside run.now mask → GiveBy run.now slots act mask writes.now (aims_of aimed targets.now) amounts.now
        → Pushes (bounds_of run.now.out) (state_of sink.old seat.old) (state_of sink.new seat.new)
        (flat_map (effects act) (frames (base_of run.now) slots (members mask))) }
{
    for row in 0..64 {
        if has_lane(aimed, row) {
            give_row(run, writes, targets[row as usize], row, amounts, seat, sink);
        }
    }
}

// Whether the board has so many effect attributes that each write has its own.
fn are_on_board(writes: &[TWrite], attributes: usize) -> bool
    ensures { result ≡ true → All (λ write. write.effect < attributes) writes.now }
{
    writes
        .iter()
        .all(|write| (write.effect as usize) < attributes)
}

// Whether so many more items of each row of a task are within the limit.
fn has_room(limit: u64, sink: &Sink, count: usize) -> bool
    requires { count ≤ EFFECTS_MAX }
    ensures within { result ≡ true → (sink.now.over ≡ false) × (sink.now.items + TASK_ROWS * count ≤ limit) }
    ensures limit { limit < 18446744073709551616 }
{
    let more = u64::from(TASK_ROWS) * count as u64;
    !sink.over && sink.items <= limit && limit - sink.items >= more
}

// Gives for the rows of a set, write by write, where all of that is within the limit.
fn give_columns(
    run: &Run,
    writes: &[TWrite],
    aimed: u64,
    targets: &[u32; LANES],
    amounts: &[LaneValues],
    seat: &mut Seat,
    sink: &mut Sink,
)
    requires can { CanRun run.now }
    requires targets { (row : ℕ) → has aimed row ≡ true → target_of targets.now row < length run.now.tick.world.now.world.rows }
    requires room { length writes.now ≤ length amounts.now }
    requires on_board { All (λ write. write.effect < length run.now.tick.script.now.schema.effects) writes.now }
    requires within { (sink.old.over ≡ false) × (sink.old.items + TASK_ROWS * length writes.now ≤ run.now.out.limit) }
    requires limit { run.now.out.limit < 18446744073709551616 }
    requires ready { IsReady run.now.out.board.now seat.old sink.old.batch }
    ensures ready { IsReady run.now.out.board.now seat.new sink.new.batch }
    ensures pushes { Pushes (bounds_of run.now.out) (state_of sink.old seat.old) (state_of sink.new seat.new) (columns (aims_of aimed targets.now) writes.now amounts.now) }
{
    let rows = count_rows(aimed);
    for number in 0..writes.len() {
        let attr = writes[number].effect;
        sink.items += rows;
        let numbers = &amounts[number].numbers;
        run.out
            .board
            .give_lanes(seat, attr, aimed, targets, numbers);
    }
}

/// Gives for the rows of a set.
pub(crate) fn give_lanes(
    run: &Run,
    writes: &[TWrite],
    aimed: u64,
    targets: &[u32; LANES],
    amounts: &[LaneValues],
    seat: &mut Seat,
    sink: &mut Sink,
)
    requires can { CanRun run.now }
    requires targets { (row : ℕ) → has aimed row ≡ true → target_of targets.now row < length run.now.tick.world.now.world.rows }
    requires room { length writes.now ≤ length amounts.now }
    requires ready { IsReady run.now.out.board.now seat.old sink.old.batch }
    ensures ready { IsReady run.now.out.board.now seat.new sink.new.batch }
    ensures pushes { (slots : Slots) (act : EffectUseOf) (mask : ℕ) → IsInside run.now mask → GiveBy run.now slots act mask writes.now (aims_of aimed targets.now) amounts.now
        → Pushes (bounds_of run.now.out) (state_of sink.old seat.old) (state_of sink.new seat.new)
        (flat_map (effects act) (frames (base_of run.now) slots (members mask))) }
{
    let attributes = run.tick.script.schema.effects.len();
    if writes.len() <= EFFECTS_MAX
        && are_on_board(writes, attributes)
        && has_room(run.out.limit, sink, writes.len())
    {
        give_columns(run, writes, aimed, targets, amounts, seat, sink);
    } else {
        give_each(run, writes, aimed, targets, amounts, seat, sink);
    }
}
