//! Worlds that are drawn: few values, so that many rows are equal in them, and some at the ends of the range.
ghost use Rattle.std.specs.Prelude.{◌≡◌, ◌<◌, ◌≤◌};

use crate::battle::WIDTH;
use env_table::{World, WorldBuilder};
use sgl_values::{Memory, Num, VALUE_MAX};
use std::alloc::Global;
use tick_random::random;

/// A number drawn from 0 to below this count, which is above 0.
pub fn drawn(number: u64, key: u32, index: u16, count: u16) -> u16 {
    if count == 0 {
        return 0;
    }
    (random(number, 0, key, index).get() % i64::from(count)).unsigned_abs() as u16
}

/// How many rows a world has: mostly few, and now and then more than a block of an index.
pub fn rows_of(number: u64) -> u32 {
    if number % 100 == 99 {
        1_300
    } else {
        u32::from(drawn(number, 0, 0, 24))
    }
}

// A value of an attribute, which is small, and now and then at an end of the range.
fn value(number: u64, key: u32, attr: u16, count: u16) -> Num
    requires { attr < 16 }
{
    let low = match drawn(number, key, 16 + attr, 90) {
        0 => VALUE_MAX - 12,
        1 => -VALUE_MAX,
        _ => -4,
    };
    let value = low + i64::from(drawn(number, key, attr, count).min(12));
    Num::new(value).unwrap_or(Num::zero())
}

// Puts a row behind the last, whose key is above the last one by 1 to 3.
fn put_row(builder: &mut WorldBuilder, number: u64, key: u32) -> Result<(), Memory>
    requires width { builder.old.table.width ≡ 6 }
    requires last { builder.old.table.world.last_key ≤ 4294967295 }
    ensures width { builder.new.table.width ≡ 6 }
    ensures last { builder.new.table.world.last_key ≤ 4294967295 }
{
    let values = [
        value(number, key, 0, 3),
        value(number, key, 1, 2),
        value(number, key, 2, 3),
        value(number, key, 3, 13),
        value(number, key, 4, 13),
        value(number, key, 5, 5),
    ];
    match builder.push(key, &values) {
        Ok(()) => Ok(()),
        Err(_) => Err(Memory),
    }
}

/// The world with this number. Between its keys there are gaps.
pub fn world(alloc: Global, number: u64) -> Result<World, Memory> {
    let mut builder = WorldBuilder::with_room(alloc, 3, WIDTH, rows_of(number))?;
    for row in 0..rows_of(number) {
        let key = 3 * row.min(10_000) + 1 + u32::from(drawn(number, row, 9, 3));
        put_row(&mut builder, number, key)?;
    }
    Ok(builder.finish(u32::MAX))
}
