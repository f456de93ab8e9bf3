//! Tests of the tournament tree and of sweeps.

use crate::tests::drawn::next;
use crate::tests::equal::assert_equal;
use extreme_sweep::*;
use sgl_values::Num;
use std::alloc::{AllocError, Global};
use std::process::Abort;
use std::test::Fail;
use std::thread::Threads;

fn pair(value: u32, key: u32) -> Pair {
    let value = Num::whole(value);
    Pair { value, key }
}

fn entry(value: u32, key: u32, group: i64) -> Entry {
    let pair = pair(value, key);
    Entry { pair, group }
}

fn point(x: i64, y: i64, entry: Entry) -> SweepPoint {
    SweepPoint { x, y, entry }
}

fn window(x: (i64, i64), y: (i64, i64), other_than: Option<i64>) -> Window {
    Window {
        x1: x.0,
        x2: x.1,
        y1: y.0,
        y2: y.1,
        other_than,
    }
}

// The least pair in a window, by the library's iterators.
fn plain(points: &[SweepPoint], window: &Window) -> Option<Pair> {
    points
        .iter()
        .filter(|point| window.x1 <= point.x && point.x <= window.x2)
        .filter(|point| window.y1 <= point.y && point.y <= window.y2)
        .filter(|point| window.other_than != Some(point.entry.group))
        .map(|point| point.entry.pair)
        .min()
}

#[test]
fn the_least_of_places(rt: HostRuntime) -> Result<(), Fail> {
    let mut tree = TourneyTree::new(rt.alloc(), 3)?;
    assert_equal(&rt, &tree.least(0, 2, None), &None);
    tree.set(0, Some(entry(5, 9, 1)));
    tree.set(1, Some(entry(5, 4, 2)));
    tree.set(2, Some(entry(1, 7, 2)));
    for (from, to, other_than, wanted) in [
        (0, 1, None, Some(pair(5, 4))),
        (0, 2, None, Some(pair(1, 7))),
        (0, 2, Some(2), Some(pair(5, 9))),
        (1, 2, Some(2), None),
        (2, 0, None, None),
    ] {
        assert_equal(&rt, &tree.least(from, to, other_than), &wanted);
    }
    tree.set(0, None);
    let without = tree.least(0, 2, Some(2));
    tree.set(2, Some(entry(5, 3, i64::MIN)));
    assert_equal(
        &rt,
        &[without, tree.least(0, 2, Some(2))],
        &[None, Some(pair(5, 3))],
    );
    pairs_have_a_least();
    Ok(())
}

#[test]
fn the_least_of_many_places(rt: HostRuntime) -> Result<(), Fail> {
    let mut tree = TourneyTree::new(rt.alloc(), 1000)?;
    for place in 0..1000u32 {
        let value = place * 7 % 1000;
        tree.set(place, Some(entry(value, place, i64::from(value % 2))));
    }
    // The value v stands at the place 143 v modulo 1000.
    for (from, to, other_than, wanted) in [
        (0, 999, None, pair(0, 0)),
        (1, 999, None, pair(1, 143)),
        (1, 999, Some(1), pair(2, 286)),
        (144, 998, None, pair(2, 286)),
        (144, 285, Some(0), pair(15, 145)),
    ] {
        assert_equal(&rt, &tree.least(from, to, other_than), &Some(wanted));
    }
    for place in 0..1000u32 {
        tree.set(place, None);
    }
    assert_equal(&rt, &tree.least(0, 999, None), &None);
    Ok(())
}

// The least pairs in these windows over these points are these, on one thread and on four.
fn assert_swept(
    rt: &(impl Abort + Threads + Sync),
    alloc: Global,
    points: &[SweepPoint],
    windows: &[Window],
    wanted: &[Option<Pair>],
) -> Result<(), Fail> {
    assert!(rt; points.len() <= 65_536 && windows.len() <= 65_536);
    for threads in [1, 4] {
        let answers = sweep(rt, threads, alloc, points, windows)?;
        assert_equal(rt, &answers.as_slice(), &wanted);
    }
    Ok(())
}

#[test]
fn windows_of_three_points(rt: HostRuntime) -> Result<(), Fail> {
    let points = [
        point(0, 0, entry(5, 9, 1)),
        point(1, 0, entry(5, 4, 2)),
        point(2, 0, entry(1, 7, 2)),
    ];
    let windows = [
        window((0, 1), (0, 0), None),
        window((0, 2), (0, 0), Some(2)),
        window((3, 4), (0, 0), None),
        window((0, 2), (1, 9), None),
        window((2, 0), (0, 0), None),
        window((0, 2), (0, -1), None),
    ];
    let wanted = [Some(pair(5, 4)), Some(pair(5, 9)), None, None, None, None];
    assert_swept(&rt, rt.alloc(), &points, &windows, &wanted)
}

#[test]
fn ties_of_one_place(rt: HostRuntime) -> Result<(), Fail> {
    assert_swept(
        &rt,
        rt.alloc(),
        &[
            point(3, 3, entry(5, 2, 7)),
            point(3, 3, entry(5, 1, 8)),
            point(3, 3, entry(5, 1, 9)),
        ],
        &[
            window((3, 3), (3, 3), None),
            window((3, 3), (3, 3), Some(8)),
            window((0, 3), (3, 4), Some(9)),
        ],
        &[Some(pair(5, 1)); 3],
    )
}

#[test]
fn the_ends_of_the_plane(rt: HostRuntime) -> Result<(), Fail> {
    const LOW: i64 = i64::MIN;
    const HIGH: i64 = i64::MAX;
    let points = [
        point(LOW, HIGH, entry(4, 1, LOW)),
        point(HIGH, LOW, entry(3, 2, HIGH)),
    ];
    let windows = [
        window((LOW, HIGH), (LOW, HIGH), None),
        window((LOW, HIGH), (LOW, HIGH), Some(HIGH)),
        window((LOW, LOW), (LOW, HIGH), None),
        window((HIGH, HIGH), (LOW, LOW), None),
        window((HIGH, LOW), (LOW, HIGH), None),
        window((LOW, HIGH - 1), (LOW, HIGH - 1), None),
    ];
    let wanted = [
        Some(pair(3, 2)),
        Some(pair(4, 1)),
        Some(pair(4, 1)),
        Some(pair(3, 2)),
        None,
        None,
    ];
    assert_swept(&rt, rt.alloc(), &points, &windows, &wanted)
}

#[test]
fn no_points_and_no_windows(rt: HostRuntime) -> Result<(), Fail> {
    let points = [point(0, 0, entry(1, 1, 1))];
    let windows = [window((0, 9), (0, 9), None)];
    assert_swept(&rt, rt.alloc(), &[], &windows, &[None])?;
    assert_swept(&rt, rt.alloc(), &points, &[], &[])
}

fn some_points(alloc: Global, seed: &mut u64, count: u32) -> Result<Vec<SweepPoint>, AllocError> {
    let mut points = Vec::new(alloc);
    for _ in 0..count {
        let (x, y) = (next(seed, 30), next(seed, 30));
        let group = i64::from(next(seed, 3));
        let entry = entry(next(seed, 9), next(seed, 9), group);
        points.push(point(i64::from(x), i64::from(y), entry))?;
    }
    Ok(points)
}

fn some_windows(alloc: Global, seed: &mut u64, count: u32) -> Result<Vec<Window>, AllocError> {
    let mut windows = Vec::new(alloc);
    for _ in 0..count {
        let (x, y) = (i64::from(next(seed, 30)), i64::from(next(seed, 30)));
        let (width, height) = (i64::from(next(seed, 24)), i64::from(next(seed, 24)));
        let group = i64::from(next(seed, 4));
        let other_than = if group == 3 { None } else { Some(group) };
        windows.push(window((x, x + width - 2), (y, y + height - 2), other_than))?;
    }
    Ok(windows)
}

// The windows have 24 widths, two of which are below 0.
#[test]
fn windows_are_answered_as_by_looking_at_each_point(rt: HostRuntime) -> Result<(), Fail> {
    let mut seed = 3;
    for count in [1, 20, 60, 300] {
        let points = some_points(rt.alloc(), &mut seed, count)?;
        let windows = some_windows(rt.alloc(), &mut seed, 200)?;
        let mut wanted = Vec::new(rt.alloc());
        for window in &windows {
            wanted.push(plain(points.as_slice(), window))?;
        }
        assert_swept(&rt, rt.alloc(), &points, &windows, &wanted)?;
    }
    Ok(())
}
