//! Tests of the tree that finds the nearest of points.

use crate::tests::drawn::next;
use crate::tests::equal::assert_equal;
use nearest_tree::*;
use sgl_values::{Num, VALUE_MAX, squared_distance};
use std::alloc::{AllocError, Global};
use std::test::Fail;
use test_cases::{number, small};

fn placed(x: Num, y: Num, key: u32, group: i64) -> NearPoint {
    NearPoint { x, y, key, group }
}

fn point(x: i32, y: i32, key: u32, group: i64) -> NearPoint {
    placed(small(x), small(y), key, group)
}

fn near(distance: i128, key: u32) -> Option<Near> {
    Some(Near { distance, key })
}

// The nearest point, by the library's iterators.
fn plain(points: &[NearPoint], x: Num, y: Num, other_than: Option<i64>) -> Option<Near> {
    points
        .iter()
        .filter(|point| other_than != Some(point.group))
        .map(|point| Near {
            distance: squared_distance(x, y, point.x, point.y),
            key: point.key,
        })
        .min()
}

#[test]
fn the_nearest_of_four_points(rt: HostRuntime) -> Result<(), Fail> {
    let points = [
        point(0, 0, 9, 1),
        point(3, 4, 5, 1),
        point(-3, 4, 4, 2),
        point(0, 0, 2, 2),
    ];
    let tree = NearTree::build(rt.alloc(), &points)?;
    for (y, other_than, wanted) in [
        (0, None, near(0, 2)),
        (0, Some(2), near(0, 9)),
        (8, None, near(25, 4)),
    ] {
        assert_equal(&rt, &tree.nearest(small(0), small(y), other_than), &wanted);
    }
    nearest_is_least();
    nearest_ignores_order();
    Ok(())
}

#[test]
fn no_points_and_none_of_another_group(rt: HostRuntime) -> Result<(), Fail> {
    let zero = Num::zero();
    let none = NearTree::build(rt.alloc(), &[])?;
    let points = [point(1, 2, 3, 7), point(2, 2, 2, 7), point(2, 1, 4, 7)];
    let tree = NearTree::build(rt.alloc(), &points)?;
    for (other_than, wanted) in [(None, near(5, 3)), (Some(7), None), (Some(8), near(5, 3))] {
        assert_equal(&rt, &none.nearest(zero, zero, other_than), &None);
        assert_equal(&rt, &tree.nearest(zero, zero, other_than), &wanted);
    }
    Ok(())
}

#[test]
fn the_ends_of_the_range(rt: HostRuntime) -> Result<(), Fail> {
    let high = number(VALUE_MAX)?;
    let low = high.negated();
    let points = [
        placed(low, low, u32::MAX, i64::MIN),
        placed(high, low, 0, i64::MAX),
    ];
    let tree = NearTree::build(rt.alloc(), &points)?;
    let side = 4 * i128::from(VALUE_MAX) * i128::from(VALUE_MAX);
    for (x, other_than, wanted) in [
        (high, None, near(side, 0)),
        (high, Some(i64::MAX), near(2 * side, u32::MAX)),
        (low, Some(i64::MIN), near(2 * side, 0)),
    ] {
        assert_equal(&rt, &tree.nearest(x, high, other_than), &wanted);
    }
    Ok(())
}

#[test]
fn many_points_at_one_place(rt: HostRuntime) -> Result<(), Fail> {
    let mut points = Vec::new(rt.alloc());
    for key in 0..100 {
        points.push(point(5, 5, 99 - key, i64::from(key % 4)))?;
    }
    let tree = NearTree::build(rt.alloc(), points.as_slice())?;
    for (x, other_than, wanted) in [(5, None, near(0, 0)), (0, Some(3), near(25, 1))] {
        assert_equal(&rt, &tree.nearest(small(x), small(5), other_than), &wanted);
    }
    Ok(())
}

// Points of three groups, in a rectangle of this size.
fn some_points(
    alloc: Global,
    seed: &mut u64,
    count: u32,
    size: (u32, u32),
) -> Result<Vec<NearPoint>, AllocError> {
    let mut points = Vec::new(alloc);
    for key in 0..count {
        let x = Num::whole(next(seed, size.0));
        let y = Num::whole(next(seed, size.1));
        points.push(placed(x, y, key, i64::from(next(seed, 3))))?;
    }
    Ok(points)
}

// Whether a tree of points answers for the places of the points, and for some others, as by looking at each point.
fn answers_as_plain(alloc: Global, points: &[NearPoint]) -> Result<bool, Fail> {
    let tree = NearTree::build(alloc, points)?;
    for at in points {
        for other_than in [None, Some(at.group), Some(7)] {
            if tree.nearest(at.x, at.y, other_than) != plain(points, at.x, at.y, other_than)
                || tree.nearest(at.y, at.x, other_than) != plain(points, at.y, at.x, other_than)
            {
                return Ok(false);
            }
        }
    }
    Ok(true)
}

#[test]
fn the_nearest_is_found_as_by_looking_at_each_point(rt: HostRuntime) -> Result<(), Fail> {
    let mut seed = 5;
    for (count, size) in [
        (1, (9, 9)),
        (2, (9, 9)),
        (33, (5, 5)),
        (300, (12, 12)),
        (300, (1000, 7)),
        (300, (1, 900)),
        (400, (100_000, 100_000)),
    ] {
        let points = some_points(rt.alloc(), &mut seed, count, size)?;
        assert!(rt; answers_as_plain(rt.alloc(), points.as_slice())?);
    }
    Ok(())
}
