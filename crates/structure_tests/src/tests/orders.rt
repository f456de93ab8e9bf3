//! Tests of the places of numbers by rising number.

use crate::tests::drawn::next as drawn;
use crate::tests::equal::assert_equal;
use rank_table::order_of;
use std::alloc::{AllocError, Global};
use std::test::Fail;

// The places by rising number and rising place, by the library's stable sort.
fn plain(alloc: Global, numbers: &[i64]) -> Result<Vec<u32>, AllocError> {
    let mut places = Vec::new(alloc);
    let mut next: u32 = 0;
    for _ in numbers {
        places.push(next)?;
        next = next.wrapping_add(1);
    }
    places.sort_by_key(|place| numbers.get(*place as usize).copied())?;
    Ok(places)
}

#[test]
fn none_one_and_equal_ones(rt: HostRuntime) -> Result<(), Fail> {
    let alloc = rt.alloc();
    assert_equal(&rt, &order_of(alloc, &[])?.as_slice(), &[].as_slice());
    assert_equal(&rt, &order_of(alloc, &[-3])?.as_slice(), &[0].as_slice());
    let equal = order_of(alloc, &[4, 4, -4, 4, -4])?;
    assert_equal(&rt, &equal.as_slice(), &[2, 4, 0, 1, 3].as_slice());
    Ok(())
}

#[test]
fn numbers_lie_as_far_apart_as_can_be(rt: HostRuntime) -> Result<(), Fail> {
    let alloc = rt.alloc();
    let wide = order_of(alloc, &[i64::MAX, 0, i64::MIN, -1, i64::MAX, 1])?;
    assert_equal(&rt, &wide.as_slice(), &[2, 3, 1, 5, 0, 4].as_slice());
    let far: i64 = 1 << 47;
    let near = order_of(alloc, &[far - 1, 0, far - 1])?;
    assert_equal(&rt, &near.as_slice(), &[1, 0, 2].as_slice());
    let beyond = order_of(alloc, &[far, 0, far, -far])?;
    assert_equal(&rt, &beyond.as_slice(), &[3, 1, 0, 2].as_slice());
    Ok(())
}

// Numbers that lie less than four times their count apart have buckets, and others are sorted.
#[test]
fn spreads_end_where_buckets_do(rt: HostRuntime) -> Result<(), Fail> {
    let alloc = rt.alloc();
    for least in [0, -7, -16, i64::MIN, i64::MAX - 17] {
        for spread in [0, 1, 14, 15, 16, 17] {
            let greatest = i64::wrapping_add(least, spread);
            let numbers = [greatest, least, greatest, least];
            let order = order_of(alloc, &numbers)?;
            let wanted = plain(alloc, &numbers)?;
            assert_equal(&rt, &order.as_slice(), &wanted.as_slice());
        }
    }
    let one = order_of(alloc, &[i64::MIN])?;
    assert_equal(&rt, &one.as_slice(), &[0].as_slice());
    let two = order_of(alloc, &[3, -4])?;
    assert_equal(&rt, &two.as_slice(), &[1, 0].as_slice());
    let far = order_of(alloc, &[4, -4])?;
    assert_equal(&rt, &far.as_slice(), &[1, 0].as_slice());
    Ok(())
}

#[test]
fn many_numbers_stand_as_a_stable_sort_puts_them(rt: HostRuntime) -> Result<(), Fail> {
    let alloc = rt.alloc();
    let mut seed: u64 = 11;
    for spread in [1, 2, 97, 6_000, 6_001, 65_536] {
        let mut numbers = Vec::new(alloc);
        for _ in 0..1_500 {
            numbers.push(i64::from(drawn(&mut seed, spread)))?;
        }
        assert!(rt; numbers.len() <= 1_500);
        let order = order_of(alloc, numbers.as_slice())?;
        let wanted = plain(alloc, numbers.as_slice())?;
        assert_equal(&rt, &order.as_slice(), &wanted.as_slice());
    }
    Ok(())
}
