//! Tests of points that are kept in cells, and of circles over them.
ghost use Rattle.std.specs.Prelude.{◌≡◌};

use crate::tests::drawn::next;
use crate::tests::equal::assert_equal;
use cell_keep::*;
use sgl_values::{Num, VALUE_MAX, squared_distance};
use std::alloc::Global;
use std::test::Fail;
use test_cases::{number, small};

const GROUP: Group = Group {
    a: 1,
    b: 0,
    c: 0,
    d: 0,
};

fn placed(key: u32, x: Num, y: Num, weight: Num) -> KeepPoint
    ensures { result.key ≡ key }
{
    KeepPoint {
        key,
        group: GROUP,
        x,
        y,
        weight,
    }
}

fn point(key: u32, x: i32, y: i32, weight: i32) -> KeepPoint
    ensures { result.key ≡ key }
{
    placed(key, small(x), small(y), small(weight))
}

fn sums(count: u32, sum: i128) -> Sums {
    Sums { count, sum }
}

#[test]
fn circles_of_three_points(rt: HostRuntime) -> Result<(), Fail> {
    let mut kept = Kept::new(rt.alloc())?;
    kept.advance(&[point(1, 0, 0, 5), point(2, 3, 4, 7), point(3, 3, 5, -2)])?;
    for (radius, wanted) in [(5, sums(2, 12)), (0, sums(1, 5)), (-1, sums(0, 0))] {
        assert_equal(
            &rt,
            &kept.within(small(0), small(0), small(radius), &GROUP),
            &wanted,
        );
    }
    Ok(())
}

#[test]
fn an_advance_leaves_no_point_of_before(rt: HostRuntime) -> Result<(), Fail> {
    let mut kept = Kept::new(rt.alloc())?;
    kept.advance(&[point(1, 0, 0, 5), point(2, 3, 4, 7), point(3, 3, 5, -2)])?;
    kept.advance(&[point(2, -1, 4, 7)])?;
    let cell = Cell {
        group: GROUP,
        cx: -1,
        cy: 0,
    };
    assert_equal(
        &rt,
        &[kept.cell_of(2), kept.cell_of(1)],
        &[Some(cell), None],
    );
    let members = kept.members(&cell).collect::<Vec<u32>>(rt.alloc())?;
    assert_equal(&rt, &members.as_slice(), &[2].as_slice());
    Ok(())
}

#[test]
fn the_ends_of_the_range(rt: HostRuntime) -> Result<(), Fail> {
    let mut kept = Kept::new(rt.alloc())?;
    let high = number(VALUE_MAX)?;
    let low = high.negated();
    kept.advance(&[placed(1, low, low, high), placed(7, high, high, high)])?;
    let other = Group {
        a: 2,
        b: 0,
        c: 0,
        d: 0,
    };
    for (y, group, wanted) in [
        (low, GROUP, sums(1, i128::from(VALUE_MAX))),
        (high, GROUP, sums(0, 0)),
        (low, other, sums(0, 0)),
    ] {
        assert_equal(&rt, &kept.within(low, y, high, &group), &wanted);
    }
    Ok(())
}

// A coordinate or a weight, from -300 to 299.
fn any(seed: &mut u64) -> Num {
    small(next(seed, 600).cast_signed().wrapping_sub(300))
}

// A point anywhere, of this key.
fn any_point(key: u32, seed: &mut u64) -> KeepPoint
    ensures { result.key ≡ key }
{
    let (x, y) = (any(seed), any(seed));
    placed(key, x, y, any(seed))
}

// What a circle holds, by looking at each point.
fn plain(points: &[KeepPoint], x: Num, y: Num, radius: Num) -> Sums {
    let r = i128::from(radius.get());
    let mut found = sums(0, 0);
    for point in points {
        if r >= 0 && squared_distance(x, y, point.x, point.y) <= r.wrapping_mul(r) {
            found.count = found.count.wrapping_add(1);
            found.sum = found.sum.wrapping_add(i128::from(point.weight.get()));
        }
    }
    found
}

// Whether circles of all sizes around a place, and the cells of the points, are told as by looking at each point.
fn answers_as_plain(
    alloc: Global,
    kept: &Kept,
    points: &[KeepPoint],
    seed: &mut u64,
) -> Result<bool, Fail> {
    for radius in [-1, 0, 20, 63, 64, 150, 400, 1000, VALUE_MAX] {
        let (x, y, radius) = (any(seed), any(seed), number(radius)?);
        if kept.within(x, y, radius, &GROUP) != plain(points, x, y, radius) {
            return Ok(false);
        }
    }
    for point in points {
        let cell = Cell {
            group: GROUP,
            cx: point.x.get().div_euclid(64),
            cy: point.y.get().div_euclid(64),
        };
        let members = kept.members(&cell).collect::<Vec<u32>>(alloc)?;
        if kept.cell_of(point.key) != Some(cell) || !members.contains(&point.key) {
            return Ok(false);
        }
    }
    Ok(true)
}

#[test]
fn circles_hold_what_a_look_at_each_point_tells(rt: HostRuntime) -> Result<(), Fail> {
    let mut seed = 9;
    let mut kept = Kept::new(rt.alloc())?;
    for _ in 0..40 {
        let many = [
            any_point(1, &mut seed),
            any_point(2, &mut seed),
            any_point(3, &mut seed),
            any_point(5, &mut seed),
            any_point(8, &mut seed),
            any_point(13, &mut seed),
            any_point(u32::MAX, &mut seed),
        ];
        kept.advance(&many)?;
        assert!(rt; answers_as_plain(rt.alloc(), &kept, &many, &mut seed)?);
        let few = [many[1], many[3], any_point(9, &mut seed)];
        kept.advance(&few)?;
        assert!(rt; answers_as_plain(rt.alloc(), &kept, &few, &mut seed)?);
    }
    Ok(())
}
