//! A slot of the rows of a task: a number in each row, and the rows in which a truth or a fault stands.
ghost use Rattle.std.specs.Prelude.{◌≡◌, ◌≢◌, ◌<◌, ℕ, ℤ, pos, true, false, IfSome};
ghost use Rattle.std.specs.Ordering.{int_eq};
ghost use Rattle.sgl_values.specs.declared.fault.Fault.{Fault as FaultOf};
ghost use Rattle.sgl_values.specs.declared.fault.Val.TheVariants.{N};
ghost use Rattle.sgl_lanes.specs.declared.kind.Lanes.TheVariants.{Numbers, Truths};
ghost use Rattle.sgl_lanes.specs.Lanes.{bit as bit_of, has, held, lane_of, EachLane, HoldEach};
ghost use Rattle.task_scratch.specs.Columns.{value_by, value_in};
ghost use Rattle.task_scratch.specs.Sorts.{sort_of};

use sgl_lanes::{
    LANES, Lanes, has_lane, lanes_in_both, lanes_in_either, lanes_without, number_at, one_lane,
    truth_at,
};
use sgl_values::{ArithFault, Fault, Num, Place, TASK_ROWS, Val};

/// A slot of 64 rows. A row has its number; or, where it is among `truths`, whether that is 1; or, where it is among
/// `faulty`, its fault of `faults`, whatever else stands there.
#[derive(Clone, Copy, Debug)]
pub(crate) struct SlotColumn {
    pub(crate) numbers: [Num; LANES],
    pub(crate) truths: u64,
    pub(crate) faulty: u64,
    pub(crate) faults: [Fault; LANES],
}

impl SlotColumn {
    /// All rows have 0.
    pub(crate) fn zeros() -> SlotColumn
        ensures { (k : ℕ) → value_in result k ≡ N (pos 0) }
    {
        SlotColumn {
            numbers: [Num::zero(); LANES],
            truths: 0,
            faulty: 0,
            faults: [Fault {
                kind: ArithFault::Overflow,
                place: Place::START,
            }; LANES],
        }
    }

    /// The value of a row.
    pub(crate) fn value(&self, row: u32) -> Val
        requires { row < TASK_ROWS }
        ensures { result ≡ value_in self.now row }
    {
        if has_lane(self.faulty, row) {
            Val::F(self.faults[row as usize])
        } else if has_lane(self.truths, row) {
            Val::B(truth_at(&self.numbers, row))
        } else {
            Val::N(number_at(&self.numbers, row))
        }
    }

    /// Sets the value of a row.
    pub(crate) fn set(&mut self, row: u32, value: Val)
        requires { row < TASK_ROWS }
        ensures same { value_in self.new row ≡ value }
        ensures other { (k : ℕ) → k ≢ row → value_in self.new k ≡ value_in self.old k }
    {
        let at = row as usize;
        let one = one_lane(row);
        match value {
            Val::N(number) => {
                self.numbers[at] = number;
                self.truths = lanes_without(self.truths, one);
                self.faulty = lanes_without(self.faulty, one);
            }
            Val::B(truth) => {
                self.numbers[at] = bit(truth);
                self.truths = lanes_in_either(self.truths, one);
                self.faulty = lanes_without(self.faulty, one);
            }
            Val::F(fault) => {
                self.faults[at] = fault;
                self.faulty = lanes_in_either(self.faulty, one);
            }
        }
    }

    /// Sets the rows of a set to what lanes hold.
    pub(crate) fn set_lanes(&mut self, mask: u64, kind: Lanes, numbers: &[Num; LANES])
        ensures inside { EachLane mask (λ k. value_in self.new k ≡ held kind (lane_of numbers.now k)) }
        ensures outside { (k : ℕ) → has mask k ≡ false → value_in self.new k ≡ value_in self.old k }
    {
        put_numbers(&mut self.numbers, mask, numbers);
        self.truths = truths_with(self.truths, mask, kind);
        self.faulty = lanes_without(self.faulty, mask);
    }

    /// Reads the rows of a set into lanes, where they are of one sort.
    pub(crate) fn lanes(&self, mask: u64, out: &mut [Num; LANES]) -> Lanes
        ensures held { HoldEach result mask out.new (λ k. value_in self.now k) }
        ensures known { result ≡ sort_of mask (λ k. value_in self.now k) }
    {
        let kind = self.kind_in(mask);
        match kind {
            Lanes::Numbers => *out = self.numbers,
            Lanes::Truths => take_truths(&self.numbers, out),
            Lanes::Unknown => {}
        }
        kind
    }

    /// The numbers as they stand, where each row of a set has one.
    pub(crate) fn lent(&self, mask: u64) -> Option<&[Num; LANES]>
        ensures { IfSome result (λ numbers. HoldEach Numbers mask numbers.now (λ k. value_in self.now k)) }
    {
        match self.kind_in(mask) {
            Lanes::Numbers => Some(&self.numbers),
            _ => None,
        }
    }

    // The sort of the rows of a set, where it is one.
    fn kind_in(&self, mask: u64) -> Lanes
        ensures numbers { result ≡ Numbers → EachLane mask (λ k. (has self.now.faulty k ≡ false) × (has self.now.truths k ≡ false)) }
        ensures truths { result ≡ Truths → EachLane mask (λ k. (has self.now.faulty k ≡ false) × (has self.now.truths k ≡ true)) }
        ensures known { result ≡ sort_of mask (λ k. value_in self.now k) }
    {
        if lanes_in_both(mask, self.faulty) != 0 {
            Lanes::Unknown
        } else if lanes_in_both(mask, self.truths) == 0 {
            Lanes::Numbers
        } else if lanes_without(mask, self.truths) == 0 {
            Lanes::Truths
        } else {
            Lanes::Unknown
        }
    }
}

// A truth as a number.
fn bit(truth: bool) -> Num
    ensures { result ≡ bit_of truth }
{
    Num::whole(u32::from(truth))
}

// The rows with truths, where those of a set hold lanes of a kind.
fn truths_with(truths: u64, mask: u64, kind: Lanes) -> u64
    ensures inside { EachLane mask (λ k. (z : ℤ) (f : FaultOf) → value_by false (has result k) z f ≡ held kind z) }
    ensures outside { (k : ℕ) → has mask k ≡ false → has result k ≡ has truths k }
{
    if kind == Lanes::Truths {
        lanes_in_either(truths, mask)
    } else {
        lanes_without(truths, mask)
    }
}

// Puts the numbers of the rows of a set.
fn put_numbers(into: &mut [Num; LANES], mask: u64, numbers: &[Num; LANES])
    ensures inside { EachLane mask (λ k. lane_of into.new k ≡ lane_of numbers.now k) }
    ensures outside { (k : ℕ) → has mask k ≡ false → lane_of into.new k ≡ lane_of into.old k }
{
    if mask == u64::MAX {
        copy_each(into, numbers);
        return;
    }
    let mut left = mask;
    let mut next = 0;
    // From one row of the set to the next, with no branch at the others.
    while left != 0 {
        let row = left.trailing_zeros();
        into[row as usize] = numbers[row as usize];
        left &= left - 1;
        next = row + 1;
    }
}

// Copies all numbers, in a loop of its own: they were written just before, in smaller pieces than those in which a whole list is
// copied, which processors wait for.
fn copy_each(into: &mut [Num; LANES], numbers: &[Num; LANES])
    ensures { into.new ≡ numbers.now }
{
    for lane in 0..LANES {
        into[lane] = numbers[lane];
    }
}

// Reads the rows as truths: each is 1 where the number is 1, and else 0.
fn take_truths(numbers: &[Num; LANES], out: &mut [Num; LANES])
    ensures { (k : ℕ) → k < LANES → lane_of out.new k ≡ bit_of (int_eq (lane_of numbers.now k) (pos 1)) }
{
    for row in 0..64 {
        out[row as usize] = bit(truth_at(numbers, row));
    }
}
