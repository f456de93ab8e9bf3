//! The assignments of `post` for the rows of a block.
ghost use Rattle.std.specs.Prelude.{◌≡◌, ◌≢◌, ◌+◌, ◌<◌, ◌≤◌, ℕ, None, [], length, slice_index_or, take, IsTrue};
ghost use Rattle.env_table.specs.Table.{numbers_in};
ghost use Rattle.tick_postprocess.specs.Blocks.{chosen, lane_context, values_in, AreAssigned, AreKnown, AreNumbers, CanRead, IsAssigned};

use crate::row_lanes::{RowLanes, cells_of};
use crate::rules::{are_numbers, assign};
use crate::unit::PostUnit;
use sgl_lanes::{LANES, LaneValues};
use sgl_typed::TRule;
use sgl_values::{CONSTS_MAX, Fault, Num};

/// Puts the new values of the first rows of a block, a lane each, and the least fault of the right sides of each, of which
/// this is known. It tells whether it is known that there is no fault.
pub(crate) fn assign_all(
    rows: &RowLanes,
    count: u32,
    known: &[LaneValues],
    new: &mut [[Num; LANES]; CONSTS_MAX],
    faults: &mut [Option<Fault>; LANES],
) -> bool
    requires few { count ≤ LANES }
    requires read { (lane : ℕ) → lane < count → CanRead rows.now lane }
    requires known { (lane : ℕ) → lane < count → AreKnown known.now lane (lane_context rows.now lane) rows.now.ending.now.tick.script.now.rules }
    ensures assigned { AreAssigned rows.now.ending.now rows.now.first (rows.now.first + count) rows.now.cells.now new.new faults.new }
    ensures quiet { IsTrue result → (lane : ℕ) → lane < count → slice_index_or faults.new lane None ≡ None }
{
    let ending = rows.ending;
    if are_numbers(known, ending.tick.script.rules.as_slice()) {
        put_plain(rows, count, known, new);
        *faults = [None; LANES];
        return true;
    }
    let width = ending.tick.world.width() as usize;
    for lane in 0..count {
        let mut row = [Num::zero(); CONSTS_MAX];
        let fault = put_new(rows, lane, known, &mut row);
        put_lane(&row[..width], lane, new);
        faults[lane as usize] = fault;
    }
    false
}

// Puts the new values of the first rows of a block, where all right sides are known to be numbers, so that there is no fault.
fn put_plain(
    rows: &RowLanes,
    count: u32,
    known: &[LaneValues],
    new: &mut [[Num; LANES]; CONSTS_MAX],
)
    requires few { count ≤ LANES }
    requires read { (lane : ℕ) → lane < count → CanRead rows.now lane }
    requires known { (lane : ℕ) → lane < count → AreKnown known.now lane (lane_context rows.now lane) rows.now.ending.now.tick.script.now.rules }
    requires numbers { AreNumbers known.now (length rows.now.ending.now.tick.script.now.rules) }
    ensures { (lane : ℕ) → lane < count → IsAssigned rows.now.ending.now.tick.script.now.rules (lane_context rows.now lane) (values_in rows.now.ending.now new.new lane) None }
{
    let ending = rows.ending;
    put_chosen(
        ending.tick.script.rules.as_slice(),
        known,
        rows.columns,
        ending.tick.world.width(),
        new,
    );
}

// Puts so many columns, each that of the first rule that assigns it, or else the old one.
fn put_chosen(
    rules: &[TRule],
    known: &[LaneValues],
    columns: &[[Num; LANES]],
    width: u32,
    new: &mut [[Num; LANES]; CONSTS_MAX],
)
    requires narrow { width ≤ CONSTS_MAX }
    requires long { width ≤ length columns.now }
    requires numbers { length rules.now ≤ length known.now }
    ensures length { length new.new ≡ CONSTS_MAX }
    ensures chosen { (attr : ℕ) → attr < width → slice_index_or new.new attr [] ≡ chosen rules.now known.now attr (slice_index_or columns.now attr []) }
{
    for attr in 0..width {
        let at = attr as usize;
        new[at] = *chosen(rules, known, attr, &columns[at]);
    }
}

// The numbers of the first rule that assigns an attribute, or else the old ones.
fn chosen<'a>(
    rules: &[TRule],
    known: &'a [LaneValues],
    attr: u32,
    old: &'a [Num; LANES],
) -> &'a [Num; LANES]
    requires { length rules.now ≤ length known.now }
    ensures { result.now ≡ chosen rules.now known.now attr old.now }
{
    for at in 0..rules.len() {
        if rules[at].attr == attr {
            return &known[at].numbers;
        }
    }
    old
}

// Puts the values of a row into its lane, one into each of the first columns.
fn put_lane(row: &[Num], lane: u32, columns: &mut [[Num; LANES]; CONSTS_MAX])
    requires lane { lane < LANES }
    requires narrow { length row.now ≤ CONSTS_MAX }
    ensures here { take (length row.now) (numbers_in columns.new lane) ≡ row.now }
    ensures other { (k : ℕ) → k ≢ lane → numbers_in columns.new k ≡ numbers_in columns.old k }
{
    for attr in 0..row.len() {
        columns[attr][lane as usize] = row[attr];
    }
}

// Puts the new values of a row into the front of a buffer, and tells the least fault of the right sides.
fn put_new(
    rows: &RowLanes,
    lane: u32,
    known: &[LaneValues],
    new: &mut [Num; CONSTS_MAX],
) -> Option<Fault>
    requires read { CanRead rows.now lane }
    requires known { AreKnown known.now lane (lane_context rows.now lane) rows.now.ending.now.tick.script.now.rules }
    ensures assigned { IsAssigned rows.now.ending.now.tick.script.now.rules (lane_context rows.now lane) (take rows.now.ending.now.tick.world.now.width new.new) result }
    ensures long { length new.new ≡ CONSTS_MAX }
{
    let ending = rows.ending;
    let world = ending.tick.world;
    let row = rows.row(lane);
    let width = world.width() as usize;
    let new = &mut new[..width];
    world.put_values(row, new);
    let mut old = [Num::zero(); CONSTS_MAX];
    let old = &mut old[..width];
    world.put_values(row, old);
    let cells = cells_of(rows.cells, lane);
    let unit = PostUnit {
        ending,
        key: world.key(row),
        values: old,
        cells: &cells[..ending.tick.script.schema.effects.len()],
    };
    assign(&unit, ending.tick.script.rules.as_slice(), known, lane, new)
}
