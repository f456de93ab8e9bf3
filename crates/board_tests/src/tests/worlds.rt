//! Worlds at their edges: no rows, no values, 65,536 rows, no memory, and memory used again.

ghost use Rattle.std.specs.Prelude.{◌≡◌, [], ◌∷◌, pos, IfOk};
ghost use Rattle.env_table.specs.Table.{empty_building, with_last_key, with_row};

use crate::tests::equal::assert_equal;
use env_table::{PushFault, World, WorldBuilder};
use sgl_values::Num;
use std::alloc::Global;
use std::process::Abort;
use std::test::Fail;

// The tick, the last key, the number of values in a row, and the number of rows.
fn head_of(world: &World) -> (u16, u32, u32, u32) {
    (world.tick(), world.last_key(), world.width(), world.len())
}

// The key and the two values of a row, which are told one by one.
fn row_of(world: &World, row: u32) -> Option<(u32, [Num; 2])> {
    if row >= world.len() || world.width() != 2 {
        return None;
    }
    Some((world.key(row), [world.at(row, 0), world.at(row, 1)]))
}

// The same values, which are put at once.
fn values_of(world: &World, row: u32) -> Option<[Num; 2]> {
    if row >= world.len() || world.width() != 2 {
        return None;
    }
    let mut values = [Num::zero(); 2];
    world.put_values(row, &mut values[..]);
    Some(values)
}

// A world of two rows, with the keys 3 and 5.
fn two_rows(alloc: Global) -> Result<World, Fail> {
    let (one, two) = (Num::whole(1), Num::whole(2));
    let mut builder = WorldBuilder::with_room(alloc, 7, 2, 2)?;
    builder.push(3, [one, two].as_slice())?;
    builder.push(5, [two, one].as_slice())?;
    Ok(builder.finish(9))
}

// A key, the two values of its row, what a push answers, and for how many rows there is room then.
const PUSHES: [(u32, u32, u32, Result<(), PushFault>, u32); 5] = [
    (0, 1, 2, Err(PushFault::Key { last: 0 }), 1),
    (3, 1, 2, Ok(()), 0),
    (3, 1, 1, Err(PushFault::Key { last: 3 }), 0),
    (2, 1, 1, Err(PushFault::Key { last: 3 }), 0),
    (u32::MAX, 2, 1, Ok(()), 0),
];

// The world of these pushes.
fn far_keys(rt: &impl Abort, alloc: Global) -> Result<World, Fail> {
    let mut builder = WorldBuilder::with_room(alloc, 7, 2, 1)?;
    assert_equal(rt, &builder.room(), &1);
    for case in PUSHES {
        let (key, first, second, want, room) = case;
        let answer = builder.push(key, [Num::whole(first), Num::whole(second)].as_slice());
        assert_equal(rt, &(key, answer, builder.room()), &(key, want, room));
    }
    // What tells its room is a table, with no key above the greatest.
    let _ = builder.room();
    Ok(builder.finish(u32::MAX))
}

#[test]
fn rows_stand_by_rising_key(rt: HostRuntime) -> Result<(), Fail> {
    let (one, two) = (Num::whole(1), Num::whole(2));
    let world = far_keys(&rt, rt.alloc())?;
    assert_equal(&rt, &head_of(&world), &(7, u32::MAX, 2, 2));
    assert_equal(
        &rt,
        &(row_of(&world, 0), row_of(&world, 1)),
        &(Some((3, [one, two])), Some((u32::MAX, [two, one]))),
    );
    Ok(())
}

#[test]
fn rows_are_found_by_key(rt: HostRuntime) -> Result<(), Fail> {
    let world = far_keys(&rt, rt.alloc())?;
    assert_equal(
        &rt,
        &(world.find(3), world.find(u32::MAX)),
        &(Some(0), Some(1)),
    );
    assert_equal(&rt, &(world.find(2), world.find(4)), &(None, None));
    Ok(())
}

fn copied_rows(alloc: Global) -> Result<World, Fail> {
    let world = two_rows(alloc)?;
    Ok(world.copy(alloc)?)
}

// Run it with each allocation failing in turn as well.
#[test]
fn a_copy_has_the_rows_and_the_last_key(rt: HostRuntime) -> Result<(), Fail> {
    let values = [Num::whole(2), Num::whole(1)];
    let copy = copied_rows(rt.alloc())?;
    assert_equal(&rt, &head_of(&copy), &(7, 9, 2, 2));
    assert_equal(
        &rt,
        &(row_of(&copy, 1), values_of(&copy, 1)),
        &(Some((5, values)), Some(values)),
    );
    Ok(())
}

// A world of one row, in the memory of one of two rows, and the room before and behind that row.
fn next_world(alloc: Global) -> Result<(World, [u32; 2]), Fail> {
    let two = Num::whole(2);
    let mut next = WorldBuilder::in_place_of(two_rows(alloc)?, 8, 2, 2)?;
    let before = next.room();
    next.push(1, [two, two].as_slice())?;
    let rooms = [before, next.room()];
    Ok((next.finish(4), rooms))
}

// Run it with each allocation failing in turn as well.
#[test]
fn a_world_leaves_its_memory_to_the_next(rt: HostRuntime) -> Result<(), Fail> {
    let (world, rooms) = next_world(rt.alloc())?;
    let row = (1, [Num::whole(2), Num::whole(2)]);
    assert_equal(&rt, &rooms, &[2, 1]);
    assert_equal(
        &rt,
        &(head_of(&world), row_of(&world, 0)),
        &((8, 4, 2, 1), Some(row)),
    );
    Ok(())
}

// Run it with each allocation failing in turn as well.
#[test]
fn a_world_leaves_its_memory_to_a_wider_one(rt: HostRuntime) -> Result<(), Fail> {
    let (world, _rooms) = next_world(rt.alloc())?;
    let wider = WorldBuilder::in_place_of(world, 9, 3, 5)?;
    assert_equal(&rt, &wider.room(), &5);
    assert_equal(&rt, &wider.finish(0).width(), &3);
    Ok(())
}

#[test]
fn a_world_without_rows(rt: HostRuntime) -> Result<(), Fail> {
    let empty = WorldBuilder::with_room(rt.alloc(), 0, 32, 0)?.finish(6);
    assert_equal(&rt, &head_of(&empty), &(0, 6, 32, 0));
    assert_equal(&rt, &empty.find(1), &None);
    Ok(())
}

#[test]
fn a_world_without_values(rt: HostRuntime) -> Result<(), Fail> {
    let mut builder = WorldBuilder::with_room(rt.alloc(), 0, 0, 1)?;
    let none = [Num::zero()];
    assert_equal(
        &rt,
        &(builder.push(9, &none[..0]), builder.room()),
        &(Ok(()), 0),
    );
    let single = builder.finish(u32::MAX);
    assert_equal(
        &rt,
        &(single.last_key(), single.find(9)),
        &(u32::MAX, Some(0)),
    );
    assert_equal(&rt, &(single.find(8), single.find(10)), &(None, None));
    Ok(())
}

// A builder with the keys 2, 4 and so on to 131,072. There was room for no more.
fn full_builder(rt: &impl Abort, alloc: Global) -> Result<WorldBuilder, Fail>
    ensures { IfOk result (λ builder. builder.table.width ≡ 1) }
{
    let mut builder = WorldBuilder::with_room(alloc, 0, 1, u32::MAX)?;
    assert_equal(rt, &builder.room(), &65_536);
    for row in 1..65_537 {
        assert_equal(
            rt,
            &builder.push(2 * row, [Num::whole(row)].as_slice()),
            &Ok(()),
        );
    }
    Ok(builder)
}

// The world of these keys. There is no place for another, whatever its key.
fn full_world(rt: &impl Abort, alloc: Global) -> Result<World, Fail> {
    let mut builder = full_builder(rt, alloc)?;
    let zero = [Num::zero()];
    for key in [u32::MAX, 1] {
        assert_equal(
            rt,
            &builder.push(key, zero.as_slice()),
            &Err(PushFault::Full),
        );
    }
    assert_equal(rt, &builder.room(), &0);
    Ok(builder.finish(u32::MAX))
}

#[test]
fn a_world_has_at_most_65_536_rows(rt: HostRuntime) -> Result<(), Fail> {
    let world = full_world(&rt, rt.alloc())?;
    assert_equal(&rt, &world.len(), &65_536);
    for (key, row) in [(2, 0), (4, 1), (65_536, 32_767), (131_072, 65_535)] {
        assert_equal(
            &rt,
            &(world.find(key), world.find(key + 1)),
            &(Some(row), None),
        );
    }
    Ok(())
}

// A builder of one row, for which there was no room.
fn grown_builder(rt: &impl Abort, alloc: Global) -> Result<WorldBuilder, Fail>
    ensures { IfOk result (λ builder. builder.table.width ≡ 1) }
{
    let mut builder = WorldBuilder::with_room(alloc, 0, 1, 0)?;
    let row = [Num::whole(6)];
    let first = builder.push(5, row.as_slice());
    if first.is_err() {
        assert_equal(rt, &first, &Err(PushFault::Memory));
        builder.push(5, row.as_slice())?;
    }
    Ok(builder)
}

// Run it with the first or the second allocation failing as well.
#[test]
fn a_push_that_finds_no_memory_changes_nothing(rt: HostRuntime) -> Result<(), Fail> {
    let mut builder = grown_builder(&rt, rt.alloc())?;
    let again = builder.push(5, [Num::whole(7)].as_slice());
    assert_equal(
        &rt,
        &(again, builder.room()),
        &(Err(PushFault::Key { last: 5 }), 0),
    );
    let world = builder.finish(u32::MAX);
    // Written out, by which the value is known to be there.
    assert_eq!(rt; (world.len(), world.width()), (1, 1));
    assert_equal(&rt, &world.at(0, 0), &Num::whole(6));
    Ok(())
}

// A world of the keys 4 and 6, which goes behind others.
fn later_rows(alloc: Global) -> Result<World, Fail>
    ensures { IfOk result (λ world. world ≡ with_last_key (with_row (with_row (empty_building 3 2 2) 4 (pos 1 ∷ pos 2 ∷ [])) 6 (pos 2 ∷ pos 2 ∷ [])).table 8) }
{
    let (one, two) = (Num::whole(1), Num::whole(2));
    let mut more = WorldBuilder::with_room(alloc, 3, 2, 2)?;
    more.push(4, [one, two].as_slice())?;
    more.push(6, [two, two].as_slice())?;
    Ok(more.finish(8))
}

// A builder of the key 3 and, behind it, the two of another world.
fn three_rows(alloc: Global) -> Result<WorldBuilder, Fail>
    ensures { IfOk result (λ builder. builder.table.width ≡ 2) }
{
    let more = later_rows(alloc)?;
    let mut builder = WorldBuilder::with_room(alloc, 7, 2, 4)?;
    builder.push(3, [Num::whole(2), Num::whole(1)].as_slice())?;
    builder.push_all(&more);
    Ok(builder)
}

// The world of these and the key 9.
fn four_rows(rt: &impl Abort, alloc: Global) -> Result<World, Fail> {
    let ones = [Num::whole(1), Num::whole(1)];
    let mut builder = three_rows(alloc)?;
    assert_equal(rt, &builder.room(), &1);
    let refused = builder.push(8, ones.as_slice());
    assert_equal(rt, &refused, &Err(PushFault::Key { last: 8 }));
    builder.push(9, ones.as_slice())?;
    Ok(builder.finish(9))
}

// Run it with each allocation failing in turn as well.
#[test]
fn all_rows_of_a_world_stand_behind_the_last(rt: HostRuntime) -> Result<(), Fail> {
    let world = four_rows(&rt, rt.alloc())?;
    assert_equal(&rt, &head_of(&world), &(7, 9, 2, 4));
    for (row, key, first, second) in [(0, 3, 2, 1), (1, 4, 1, 2), (2, 6, 2, 2), (3, 9, 1, 1)] {
        let want = (key, [Num::whole(first), Num::whole(second)]);
        assert_equal(&rt, &row_of(&world, row), &Some(want));
    }
    Ok(())
}
