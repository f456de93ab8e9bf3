//! Tests of the index of points in boxes: at their edges, at the ends of the range, and against a scan.

use crate::tests::equal::assert_equal;
use range_aggregate::*;
use sgl_values::{Num, VALUE_MAX};
use std::alloc::{AllocError, Global};
use std::test::Fail;
use test_cases::{number, small};

fn point(x: i64, y: i64, weight: Num) -> Point {
    Point { x, y, weight }
}

// How many points lie in a box, and the sum of their weights.
fn within(index: &RangeIndex, x1: i64, x2: i64, y1: i64, y2: i64) -> (u32, i128) {
    (index.count(x1, x2, y1, y2), index.sum(x1, x2, y1, y2))
}

#[test]
fn edges_belong_to_a_box(rt: HostRuntime) -> Result<(), Fail> {
    let points = [
        point(0, 0, small(5)),
        point(3, 4, small(7)),
        point(3, 9, small(-2)),
    ];
    let index = RangeIndex::build(&rt, 1, rt.alloc(), &points)?;
    for (x1, x2, y1, y2, count, sum) in [
        (0, 3, 0, 4, 2, 12),
        (0, 3, 0, 9, 3, 10),
        (5, 4, 0, 9, 0, 0),
        (0, 3, 9, 0, 0, 0),
        (1, 2, 0, 9, 0, 0),
        (3, 3, 9, 9, 1, -2),
    ] {
        assert_equal(&rt, &within(&index, x1, x2, y1, y2), &(count, sum));
    }
    Ok(())
}

#[test]
fn no_points(rt: HostRuntime) -> Result<(), Fail> {
    let index = RangeIndex::build(&rt, 1, rt.alloc(), &[])?;
    assert_equal(
        &rt,
        &within(&index, i64::MIN, i64::MAX, i64::MIN, i64::MAX),
        &(0, 0),
    );
    Ok(())
}

#[test]
fn equal_points(rt: HostRuntime) -> Result<(), Fail> {
    let index = RangeIndex::build(&rt, 1, rt.alloc(), &[point(2, 3, small(1)); 7])?;
    for (x1, x2, y1, y2, found) in [(2, 2, 3, 3, 7), (2, 2, 4, 9, 0), (3, 9, 3, 3, 0)] {
        assert_equal(
            &rt,
            &within(&index, x1, x2, y1, y2),
            &(found, i128::from(found)),
        );
    }
    Ok(())
}

#[test]
fn boxes_reach_the_ends_of_the_range(rt: HostRuntime) -> Result<(), Fail> {
    const LOW: i64 = i64::MIN;
    const HIGH: i64 = i64::MAX;
    let most = number(VALUE_MAX)?;
    let points = [
        point(LOW, HIGH, most.negated()),
        point(HIGH, LOW, most),
        point(HIGH, LOW, most),
        point(HIGH, HIGH, most),
    ];
    let index = RangeIndex::build(&rt, 1, rt.alloc(), &points)?;
    for (x1, x2, y1, y2, count, sum) in [
        (LOW, HIGH, LOW, HIGH, 4, 2_000_000_000_000),
        (LOW, LOW, HIGH, HIGH, 1, -1_000_000_000_000),
        (HIGH, HIGH, LOW, LOW, 2, 2_000_000_000_000),
        (LOW + 1, HIGH - 1, LOW, HIGH, 0, 0),
        (HIGH, LOW, LOW, HIGH, 0, 0),
    ] {
        assert_equal(&rt, &within(&index, x1, x2, y1, y2), &(count, sum));
    }
    Ok(())
}

// The next word of a generator (MMIX, Knuth), and a number from its upper bits, from 0 up to below so many.
fn next(state: u64) -> u64 {
    state
        .wrapping_mul(6_364_136_223_846_793_005)
        .wrapping_add(1_442_695_040_888_963_407)
}

fn drawn(state: u64, below: u64) -> i64 {
    (state >> 40).checked_rem(below).unwrap_or(0).cast_signed()
}

fn generated(alloc: Global, count: u32) -> Result<Vec<Point>, AllocError> {
    let mut points = Vec::new(alloc);
    let mut state = 1;
    for weight in 0..count {
        let x = next(state);
        let y = next(x);
        state = y;
        points.push(Point {
            x: drawn(x, 40),
            y: drawn(y, 30),
            weight: Num::whole(weight).negated(),
        })?;
    }
    Ok(points)
}

fn scan(points: &[Point], x1: i64, x2: i64, y1: i64, y2: i64) -> (u32, i128) {
    let mut count: u32 = 0;
    let mut sum: i128 = 0;
    for point in points {
        if x1 <= point.x && point.x <= x2 && y1 <= point.y && point.y <= y2 {
            count = count.wrapping_add(1);
            sum = sum.wrapping_add(i128::from(point.weight.get()));
        }
    }
    (count, sum)
}

#[test]
fn an_index_tells_what_a_scan_tells(rt: HostRuntime) -> Result<(), Fail> {
    boxes_ignore_order();
    for count in [1, 2, 3, 5, 16, 17, 31, 100, 333, 1_024, 2_700] {
        let points = generated(rt.alloc(), count)?;
        assert!(rt; points.len() <= 65_536);
        let index = RangeIndex::build(&rt, 2, rt.alloc(), points.as_slice())?;
        let mut state = 5;
        for _ in 0..200 {
            let (x1, x2) = (next(state), next(next(state)));
            let (y1, y2) = (next(x2), next(next(x2)));
            state = y2;
            let (x1, x2) = (drawn(x1, 40), drawn(x2, 42));
            let (y1, y2) = (drawn(y1, 30), drawn(y2, 32));
            let scanned = scan(points.as_slice(), x1, x2, y1, y2);
            assert_equal(&rt, &within(&index, x1, x2, y1, y2), &scanned);
        }
    }
    Ok(())
}
