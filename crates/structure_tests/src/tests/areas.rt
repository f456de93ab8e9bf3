//! Tests of the spread of points.

use crate::tests::drawn::next;
use crate::tests::equal::assert_equal;
use area_effects::*;
use sgl_values::{Num, VALUE_MAX};
use std::alloc::{AllocError, Global};
use std::test::Fail;
use test_cases::{number, small};

fn point(x: i64, y: i64) -> AreaPoint {
    AreaPoint { x, y }
}

fn area(x: (i64, i64), y: (i64, i64), amount: Num) -> AreaBox {
    AreaBox {
        x1: x.0,
        x2: x.1,
        y1: y.0,
        y2: y.1,
        amount,
    }
}

// The sum and the number of the boxes around a point, by looking at each.
fn plain(boxes: &[AreaBox], point: &AreaPoint) -> (i64, u32) {
    let mut sum: i64 = 0;
    let mut count: u32 = 0;
    for area in boxes {
        let across = area.x1 <= point.x && point.x <= area.x2;
        let along = area.y1 <= point.y && point.y <= area.y2;
        if across && along {
            sum = sum.wrapping_add(area.amount.get());
            count = count.wrapping_add(1);
        }
    }
    (sum, count)
}

#[test]
fn two_boxes_and_an_empty_one(rt: HostRuntime) -> Result<(), Fail> {
    let points = AreaPoints::build(rt.alloc(), [point(0, 0), point(2, 0)].as_slice())?;
    let mut work = AreaWork::new(rt.alloc(), 2, 3)?;
    let boxes = [
        area((0, 2), (0, 0), small(5)),
        area((1, 9), (0, 0), small(-7)),
        area((3, 2), (0, 0), small(1)),
    ];
    points.spread(&mut work, &boxes);
    for (i, sum, count) in [(0, 5, 1), (1, -2, 2)] {
        assert_equal(&rt, &(work.sum(i), work.count(i)), &(sum, count));
    }
    Ok(())
}

#[test]
fn boxes_reach_the_ends_of_the_plane(rt: HostRuntime) -> Result<(), Fail> {
    const LOW: i64 = i64::MIN;
    const HIGH: i64 = i64::MAX;
    let corners = [
        point(LOW, LOW),
        point(LOW, HIGH),
        point(HIGH, LOW),
        point(HIGH, HIGH),
    ];
    let points = AreaPoints::build(rt.alloc(), corners.as_slice())?;
    let mut work = AreaWork::new(rt.alloc(), 4, 6)?;
    let most = number(VALUE_MAX)?;
    let boxes = [
        area((LOW, HIGH), (LOW, HIGH), most),
        area((LOW, LOW), (LOW, HIGH), most),
        area((HIGH, HIGH), (HIGH, HIGH), small(-1)),
        area((HIGH, LOW), (LOW, HIGH), small(7)),
        area((LOW, HIGH), (HIGH, LOW), small(7)),
        area((LOW, HIGH - 1), (LOW, HIGH - 1), most.negated()),
    ];
    points.spread(&mut work, &boxes);
    for (i, sum, count) in [
        (0, VALUE_MAX, 3),
        (1, 2 * VALUE_MAX, 2),
        (2, VALUE_MAX, 1),
        (3, VALUE_MAX - 1, 2),
    ] {
        assert_equal(&rt, &(work.sum(i), work.count(i)), &(sum, count));
    }
    Ok(())
}

#[test]
fn the_last_spread_is_told(rt: HostRuntime) -> Result<(), Fail> {
    let mut work = AreaWork::new(rt.alloc(), 3, 2)?;
    let boxes = [
        area((0, 9), (0, 9), small(4)),
        area((1, 1), (1, 1), small(4)),
    ];
    let many = AreaPoints::build(rt.alloc(), [point(1, 1); 3].as_slice())?;
    many.spread(&mut work, &boxes);
    assert_equal(&rt, &work.sum(2), &8);
    let one = AreaPoints::build(rt.alloc(), [point(1, 1)].as_slice())?;
    one.spread(&mut work, &boxes[..1]);
    assert_equal(&rt, &(work.sum(0), work.count(0)), &(4, 1));
    one.spread(&mut work, &boxes[..0]);
    assert_equal(&rt, &(work.sum(0), work.count(0)), &(0, 0));
    Ok(())
}

#[test]
fn the_most_points_and_boxes(rt: HostRuntime) -> Result<(), Fail> {
    const MOST: u32 = 65_536;
    let points = vec![in rt.alloc(); point(7, i64::MIN); MOST as usize]?;
    let area = area((7, 7), (i64::MIN, 0), number(VALUE_MAX)?);
    let boxes = vec![in rt.alloc(); area; MOST as usize]?;
    let built = AreaPoints::build(rt.alloc(), points.as_slice())?;
    let mut work = AreaWork::new(rt.alloc(), MOST, MOST)?;
    built.spread(&mut work, boxes.as_slice());
    assert_equal(
        &rt,
        &[work.sum(0), work.sum(65_535)],
        &[65_536_000_000_000_000; 2],
    );
    assert_equal(&rt, &[work.count(0), work.count(65_535)], &[65_536; 2]);
    Ok(())
}

// A number from 0 to before `below`; where it is the first or the last of them, an end of the range.
fn next_or_end(seed: &mut u64, below: u32) -> i64 {
    let drawn = next(seed, below);
    if drawn == 0 {
        i64::MIN
    } else if drawn == below.saturating_sub(1) {
        i64::MAX
    } else {
        i64::from(drawn)
    }
}

fn some_points(alloc: Global, seed: &mut u64, count: u32) -> Result<Vec<AreaPoint>, AllocError> {
    let mut points = Vec::new(alloc);
    for _ in 0..count {
        let x = next_or_end(seed, 30);
        points.push(point(x, next_or_end(seed, 30)))?;
    }
    Ok(points)
}

fn some_boxes(alloc: Global, seed: &mut u64, count: u32) -> Result<Vec<AreaBox>, AllocError> {
    let mut boxes = Vec::new(alloc);
    for amount in 0..count {
        let amount = Num::whole(amount);
        boxes.push(AreaBox {
            x1: next_or_end(seed, 20),
            x2: next_or_end(seed, 30),
            y1: next_or_end(seed, 20),
            y2: next_or_end(seed, 30),
            amount: if amount.get() % 3 == 0 {
                amount.negated()
            } else {
                amount
            },
        })?;
    }
    Ok(boxes)
}

#[test]
fn points_are_answered_as_by_looking_at_each_box(rt: HostRuntime) -> Result<(), Fail> {
    let mut seed = 3;
    let mut work = AreaWork::new(rt.alloc(), 400, 300)?;
    for (many, boxed) in [(400, 300), (1, 300), (7, 20), (64, 64), (300, 0), (0, 9)] {
        let points = some_points(rt.alloc(), &mut seed, many)?;
        let boxes = some_boxes(rt.alloc(), &mut seed, boxed)?;
        assert!(rt; points.len() <= 400 && boxes.len() <= 300);
        let built = AreaPoints::build(rt.alloc(), points.as_slice())?;
        built.spread(&mut work, boxes.as_slice());
        for i in 0..points.len() {
            let (sum, count) = plain(boxes.as_slice(), &points[i]);
            assert_equal(
                &rt,
                &(work.sum(i as u32), work.count(i as u32)),
                &(sum, count),
            );
        }
    }
    Ok(())
}
