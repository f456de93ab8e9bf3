//! Slots of the rows of a task: for which sets they are read by lanes.

use crate::equal::assert_equal;
use crate::sample::PLACE;
use sgl_lanes::{Lanes, has_lane, number_at};
use sgl_values::{ArithFault, Fault, Memory, Num, Val};
use std::alloc::Global;
use std::test::Fail;
use task_scratch::SlotRows;

const ODD: u64 = 0xAAAA_AAAA_AAAA_AAAA;

// The number of each row, from 1 on.
fn numbers() -> [Num; 64] {
    let mut numbers = [Num::zero(); 64];
    for row in 0_u32..64 {
        numbers[row as usize] = Num::whole(row + 1);
    }
    numbers
}

// 1 in each third row, and else 0.
fn thirds() -> [Num; 64] {
    let mut numbers = [Num::zero(); 64];
    for row in 0_u32..64 {
        numbers[row as usize] = Num::whole(u32::from(row % 3 == 0));
    }
    numbers
}

// Whether lanes are of this sort, and hold these numbers in the rows of the set.
fn are(rows: &SlotRows, slot: u32, mask: u64, wanted: Lanes, numbers: &[Num; 64]) -> bool {
    let mut out = [Num::whole(7); 64];
    let mut are = rows.lanes(slot, mask, &mut out) == wanted;
    for row in 0..64 {
        let same = number_at(&out, row) == number_at(numbers, row);
        are &= same || wanted == Lanes::Unknown || !has_lane(mask, row);
    }
    are
}

// Rows of two slots, of which the first holds numbers, and truths in each odd row.
fn mixed(alloc: Global) -> Result<SlotRows, Memory> {
    let mut rows = SlotRows::new(alloc, 2)?;
    rows.set_lanes(0, u64::MAX, Lanes::Numbers, &numbers());
    rows.set_lanes(0, ODD, Lanes::Truths, &thirds());
    Ok(rows)
}

#[test]
fn a_slot_reads_0_and_then_the_numbers_it_is_set_to(rt: HostRuntime) -> Result<(), Fail> {
    let mut rows = SlotRows::new(rt.alloc(), 2)?;
    let zeros = are(&rows, 0, u64::MAX, Lanes::Numbers, &[Num::zero(); 64]);
    rows.set_lanes(0, u64::MAX, Lanes::Numbers, &numbers());
    let set = are(&rows, 0, u64::MAX, Lanes::Numbers, &numbers());
    assert_equal(&rt, &[zeros, set], &[true; 2]);
    Ok(())
}

#[test]
fn slots_are_read_by_lanes_where_they_are_of_one_sort(rt: HostRuntime) -> Result<(), Fail> {
    let rows = mixed(rt.alloc())?;
    let odd = are(&rows, 0, ODD, Lanes::Truths, &thirds());
    let even = are(&rows, 0, !ODD, Lanes::Numbers, &numbers());
    let both = are(&rows, 0, 3, Lanes::Unknown, &numbers());
    assert_equal(&rt, &[odd, even, both], &[true; 3]);
    let values = [rows.value(2, 0), rows.value(3, 0)];
    assert_equal(&rt, &values, &[Val::N(Num::whole(3)), Val::B(true)]);
    Ok(())
}

// The second slot is as before, and one that is missing reads 0.
#[test]
fn other_slots_than_the_one_that_is_set_read_0(rt: HostRuntime) -> Result<(), Fail> {
    let rows = mixed(rt.alloc())?;
    let second = are(&rows, 1, u64::MAX, Lanes::Numbers, &[Num::zero(); 64]);
    let missing = are(&rows, 2, u64::MAX, Lanes::Numbers, &[Num::zero(); 64]);
    assert_equal(&rt, &[second, missing], &[true; 2]);
    Ok(())
}

fn fault() -> Val {
    Val::F(Fault {
        kind: ArithFault::ZeroDivisor,
        place: PLACE,
    })
}

// Rows of one slot, which holds numbers, but in row 5 a fault.
fn faulty(alloc: Global) -> Result<SlotRows, Memory> {
    let mut rows = SlotRows::new(alloc, 1)?;
    rows.set_lanes(0, u64::MAX, Lanes::Numbers, &numbers());
    rows.set(5, 0, fault());
    Ok(rows)
}

#[test]
fn a_fault_in_the_set_is_unknown(rt: HostRuntime) -> Result<(), Fail> {
    let rows = faulty(rt.alloc())?;
    assert_equal(&rt, &rows.value(5, 0), &fault());
    let within = are(&rows, 0, u64::MAX, Lanes::Unknown, &numbers());
    let outside = are(&rows, 0, !(1 << 5), Lanes::Numbers, &numbers());
    assert_equal(&rt, &[within, outside], &[true; 2]);
    Ok(())
}

#[test]
fn a_row_with_a_fault_is_read_when_it_is_set_again(rt: HostRuntime) -> Result<(), Fail> {
    let mut rows = faulty(rt.alloc())?;
    rows.set(5, 0, Val::N(Num::whole(6)));
    let number = are(&rows, 0, u64::MAX, Lanes::Numbers, &numbers());
    rows.set(5, 0, fault());
    rows.set_lanes(0, 1 << 5, Lanes::Truths, &thirds());
    let truth = are(&rows, 0, 1 << 5, Lanes::Truths, &thirds());
    assert_equal(&rt, &[number, truth], &[true; 2]);
    Ok(())
}
