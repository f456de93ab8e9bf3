//! Keys with and without gaps, and a world without rows.

use super::*;
use env_table::{World, WorldBuilder};
use std::alloc::Global;
use std::test::Fail;

// A world of at most six rows with these keys, which rise.
fn world_of(alloc: Global, keys: &[u32]) -> Result<World, Fail> {
    let mut builder = WorldBuilder::with_room(alloc, 0, 0, 6)?;
    for key in keys {
        builder.push(*key, &[])?;
    }
    Ok(builder.finish(u32::MAX))
}

#[test]
fn no_key_is_in_a_world_without_rows(rt: HostRuntime) -> Result<(), Fail> {
    let world = world_of(rt.alloc(), &[])?;
    let table = KeyTable::build(rt.alloc(), &world)?;
    for key in [0, 1, u32::MAX] {
        assert_eq!(rt; table.find(&world, key), None);
    }
    Ok(())
}

#[test]
fn keys_are_found_at_their_rows_and_no_others(rt: HostRuntime) -> Result<(), Fail> {
    let kept = [
        [1, 2, 3, 4, 5, 6],
        [2, 3, 5, 9, 17, 33],
        [1, 7, 1_000, 70_000, 5_000_000, u32::MAX],
        [1, 2, 3, 4, 5, u32::MAX],
    ];
    for keys in kept {
        let world = world_of(rt.alloc(), &keys)?;
        let table = KeyTable::build(rt.alloc(), &world)?;
        for row in 0..6_u32 {
            let key = keys[row as usize];
            assert_eq!(rt; table.find(&world, key), Some(row));
            assert_eq!(rt;
                KeyTable::without_ranks(&world).find(&world, key),
                Some(row)
            );
            for other in [key - 1, key.wrapping_add(1)] {
                assert_eq!(rt; table.find(&world, other), world.find(other));
            }
        }
        assert_eq!(rt; table.find(&world, 0), None);
    }
    Ok(())
}
