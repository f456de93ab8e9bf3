//! Ranks at the ends of the range, and against a scan.

ghost use Rattle.std.specs.Prelude.{IfOk};
ghost use Rattle.rank_table.specs.Ranks.{IsRising};

use crate::tests::equal::assert_equal;
use rank_table::{RankTable, ranks_keep_order};
use std::alloc::{AllocError, Global};
use std::test::Fail;

// The ranks that a scan tells.
fn scan(values: &[i64], number: i64) -> (u32, u32) {
    let mut below: u32 = 0;
    let mut through: u32 = 0;
    for value in values {
        if *value < number {
            below = below.wrapping_add(1);
        }
        if *value <= number {
            through = through.wrapping_add(1);
        }
    }
    (below, through)
}

#[test]
fn no_numbers_and_equal_numbers(rt: HostRuntime) -> Result<(), Fail> {
    let none = RankTable::build(rt.alloc(), Vec::new(rt.alloc()))?;
    for number in [i64::MIN, -1, 0, 1, i64::MAX] {
        assert_equal(&rt, &none.below(number), &0);
        assert_equal(&rt, &none.through(number), &0);
    }
    let same = RankTable::build(rt.alloc(), [7, 7, 7].to_vec(rt.alloc())?)?;
    for (number, below, through) in [
        (i64::MIN, 0, 0),
        (6, 0, 0),
        (7, 0, 3),
        (8, 3, 3),
        (i64::MAX, 3, 3),
    ] {
        assert_equal(&rt, &same.below(number), &below);
        assert_equal(&rt, &same.through(number), &through);
    }
    Ok(())
}

#[test]
fn numbers_at_the_ends_of_the_range(rt: HostRuntime) -> Result<(), Fail> {
    let values = [i64::MIN, -5, 0, 0, 3, i64::MAX].to_vec(rt.alloc())?;
    let table = RankTable::build(rt.alloc(), values)?;
    for (number, below, through) in [
        (i64::MIN, 0, 1),
        (i64::MIN + 1, 1, 1),
        (-5, 1, 2),
        (0, 2, 4),
        (1, 4, 4),
        (3, 4, 5),
        (i64::MAX - 1, 5, 5),
        (i64::MAX, 5, 6),
    ] {
        assert_equal(&rt, &table.below(number), &below);
        assert_equal(&rt, &table.through(number), &through);
    }
    Ok(())
}

// Numbers with growing gaps, so that some buckets have many and most have none.
fn growing(alloc: Global, count: u32) -> Result<Vec<i64>, AllocError>
    ensures { IfOk result (λ values. IsRising values.items) }
{
    let mut values = Vec::new(alloc);
    let mut value: i64 = -70_000;
    for step in 0..count {
        value = value.wrapping_add(i64::from(step % 7).wrapping_mul(i64::from(step / 9)));
        values.push(value)?;
    }
    values.sort()?;
    Ok(values)
}

#[test]
fn a_table_tells_what_a_scan_tells(rt: HostRuntime) -> Result<(), Fail> {
    ranks_keep_order();
    for count in [1, 2, 3, 10, 100, 900] {
        let values = growing(rt.alloc(), count)?;
        assert!(rt; values.len() <= 65_536);
        let scanned = growing(rt.alloc(), count)?;
        let table = RankTable::build(rt.alloc(), values)?;
        for step in -80_i64..300 {
            for offset in [0, 1, 7] {
                let number = step.wrapping_mul(1_000).wrapping_add(offset);
                let (below, through) = scan(scanned.as_slice(), number);
                assert_equal(&rt, &table.below(number), &below);
                assert_equal(&rt, &table.through(number), &through);
            }
        }
    }
    Ok(())
}
