//! The assignments of `post`, and what becomes of a row.
ghost use Rattle.std.specs.Prelude.{◌≡◌, true, [], ◌∷◌, ◌<◌, length, not, slice_set, IsTrue};
ghost use Rattle.sgl_values.specs.ItemOrder.{fault_cmp};
ghost use Rattle.sgl_values.specs.Least.{least_of, lesser_of};
ghost use Rattle.sgl_typed.specs.Tick.{assigned, fault_of, faults_of, is_met, removal_value, spawn_faults, spawn_rules, spawn_value, with_values};
ghost use Rattle.sgl_lanes.specs.Lanes.{lane_of, Holds};
ghost use Rattle.tick_postprocess.specs.Blocks.{AreKnown, AreNumbers};
ghost use Rattle.tick_postprocess.specs.Rows.{bit, fate_or};
ghost use Rattle.tick_postprocess.specs.Unit.{context_of};
ghost use Rattle.std.specs.Ordering.{is_gt};

use crate::unit::PostUnit;
use crate::values::{right_side, value_at};
use sgl_lanes::{LANES, LaneValues, Lanes};
use sgl_typed::{TExpr, TRule, TSpawn};
use sgl_values::{Fault, Num, Val};
use std::cmp::Ordering;

/// What `spawn when` and its block give: whether there is a child, and the least fault.
#[derive(Clone, Copy)]
pub(crate) struct Spawning {
    pub spawns: bool,
    pub fault: Option<Fault>,
}

/// What becomes of a row: whether it stays, and whether it has a child.
#[derive(Clone, Copy)]
pub(crate) struct Fate {
    pub stays: bool,
    pub spawns: bool,
}

/// All assignments at once, over values that are the old ones before, and the least fault of the right sides. Of the first
/// right sides it may be known what their values are in the lane of the unit.
pub(crate) fn assign(
    unit: &PostUnit,
    rules: &[TRule],
    known: &[LaneValues],
    lane: u32,
    values: &mut [Num],
) -> Option<Fault>
    requires lane { lane < LANES }
    requires known { AreKnown known.now lane (context_of unit.now) rules.now }
    ensures values { values.new ≡ with_values (assigned (context_of unit.now) rules.now) values.old }
    ensures fault { result ≡ least_of fault_cmp (faults_of (assigned (context_of unit.now) rules.now)) }
{
    let mut least = None;
    for at in (0..rules.len()).rev() {
        let rule = &rules[at];
        let value = right_side(unit, rule, at, known, lane);
        least = take_value(values, rule.attr, value, least);
    }
    least
}

/// Whether it is known of all right sides that they are numbers.
pub(crate) fn are_numbers(known: &[LaneValues], rules: &[TRule]) -> bool
    ensures { IsTrue result → AreNumbers known.now (length rules.now) }
{
    if known.len() < rules.len() {
        return false;
    }
    for at in 0..rules.len() {
        if known[at].kind != Lanes::Numbers {
            return false;
        }
    }
    true
}

// One assignment, and the lesser of its fault and of those behind it.
fn take_value(values: &mut [Num], attr: u32, value: Val, least: Option<Fault>) -> Option<Fault>
    ensures values { values.new ≡ with_values ((attr, value) ∷ []) values.old }
    ensures fault { result ≡ lesser_of fault_cmp (least_of fault_cmp (fault_of value)) least }
{
    match value {
        Val::N(number) => {
            set_value(values, attr, number);
            least
        }
        Val::B(_) => least,
        Val::F(fault) => Some(lesser(fault, least)),
    }
}

fn set_value(values: &mut [Num], attr: u32, number: Num)
    ensures { values.new ≡ slice_set values.old attr number }
{
    let at = attr as usize;
    if at < values.len() {
        values[at] = number;
    }
}

// The lesser of a fault and of one that may be there; of equals the first.
fn lesser(fault: Fault, other: Option<Fault>) -> Fault
    ensures { Rattle.std.specs.Prelude.Some result ≡ lesser_of fault_cmp (Rattle.std.specs.Prelude.Some fault) other }
{
    match other {
        None => fault,
        Some(other) => {
            if is_behind(fault, other) {
                other
            } else {
                fault
            }
        }
    }
}

// Whether a fault goes behind another one.
fn is_behind(fault: Fault, other: Fault) -> bool
    ensures { result ≡ is_gt (fault_cmp fault other) }
{
    let by_place = fault.place.cmp(&other.place);
    by_place.then((fault.kind as u8).cmp(&(other.kind as u8))) == Ordering::Greater
}

/// The value of `remove when`, and false where there is none. It may be known what it is in the lane of the unit.
pub(crate) fn removal_of(
    unit: &PostUnit,
    removal: &Option<TExpr>,
    known: &LaneValues,
    lane: u32,
) -> Val
    requires lane { lane < LANES }
    requires known { Holds known.now.kind (lane_of known.now.numbers lane) (removal_value removal.now (context_of unit.now)) }
    ensures { result ≡ removal_value removal.now (context_of unit.now) }
{
    match removal {
        None => Val::B(false),
        Some(expr) => value_at(known, unit, lane, expr),
    }
}

/// `spawn when`, and where it is true all assignments of its block at once, over a child that has the unit's values before.
/// It may be known what its condition is in the lane of the unit.
pub(crate) fn spawn_child(
    unit: &PostUnit,
    spawn: &Option<TSpawn>,
    known: &LaneValues,
    lane: u32,
    child: &mut [Num],
) -> Spawning
    requires lane { lane < LANES }
    requires known { Holds known.now.kind (lane_of known.now.numbers lane) (spawn_value spawn.now (context_of unit.now)) }
    ensures length { length child.new ≡ length child.old }
    ensures spawns { result.spawns ≡ is_met (spawn_value spawn.now (context_of unit.now)) }
    ensures fault { result.fault ≡ least_of fault_cmp (spawn_faults (spawn_value spawn.now (context_of unit.now)) (faults_of (assigned (context_of unit.now) (spawn_rules spawn.now)))) }
    ensures child { result.spawns ≡ true → child.new ≡ with_values (assigned (context_of unit.now) (spawn_rules spawn.now)) child.old }
{
    match spawn {
        None => Spawning {
            spawns: false,
            fault: None,
        },
        Some(spawn) => match value_at(known, unit, lane, &spawn.cond) {
            Val::B(true) => {
                let fault = assign(unit, spawn.rules.as_slice(), &[], 0, child);
                Spawning {
                    spawns: true,
                    fault,
                }
            }
            Val::B(false) => Spawning {
                spawns: false,
                fault: None,
            },
            Val::N(_) => Spawning {
                spawns: false,
                fault: None,
            },
            Val::F(fault) => Spawning {
                spawns: false,
                fault: Some(fault),
            },
        },
    }
}

/// The lesser of two faults that may be there, or else what becomes of the row.
pub(crate) fn fate_of(spawning: &Spawning, removal: &Val) -> Result<Fate, Fault>
    ensures { result ≡ fate_or (lesser_of fault_cmp spawning.now.fault (least_of fault_cmp (fault_of removal.now))) (not (is_met removal.now)) spawning.now.spawns }
{
    match lesser_fault(spawning.fault, fault_in(removal)) {
        Some(fault) => Err(fault),
        None => Ok(Fate {
            stays: !is_true(removal),
            spawns: spawning.spawns,
        }),
    }
}

fn lesser_fault(first: Option<Fault>, second: Option<Fault>) -> Option<Fault>
    ensures { result ≡ lesser_of fault_cmp first second }
{
    match first {
        None => second,
        Some(first) => Some(lesser(first, second)),
    }
}

fn fault_in(value: &Val) -> Option<Fault>
    ensures { result ≡ least_of fault_cmp (fault_of value.now) }
{
    match value {
        Val::F(fault) => Some(*fault),
        Val::N(_) => None,
        Val::B(_) => None,
    }
}

fn is_true(value: &Val) -> bool
    ensures { result ≡ is_met value.now }
{
    match value {
        Val::B(truth) => *truth,
        Val::N(_) => false,
        Val::F(_) => false,
    }
}

/// 1 where it is so, and else 0.
pub(crate) fn one_if(holds: bool) -> u32
    ensures { result ≡ bit holds }
{
    if holds { 1 } else { 0 }
}
