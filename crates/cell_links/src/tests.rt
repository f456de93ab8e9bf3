//! Rows put and taken at both ends of lists, with few rows and with 65,536.
ghost use Rattle.std.specs.Prelude.{◌≡◌, ◌<◌, length};

use super::*;
use std::test::Fail;

// Links a row that is in no list.
fn put(links: &mut CellLinks, row: u32, group: u32)
    requires row { row < links.old.rows }
    requires group { group < length links.old.lists }
    ensures rows { links.new.rows ≡ links.old.rows }
    ensures groups { length links.new.lists ≡ length links.old.lists }
{
    if links.group_of(row).is_none() {
        links.link(row, group);
    }
}

// Unlinks a row that is in a list.
fn take(links: &mut CellLinks, row: u32)
    requires { row < links.old.rows }
    ensures rows { links.new.rows ≡ links.old.rows }
    ensures groups { length links.new.lists ≡ length links.old.lists }
{
    if links.group_of(row).is_some() {
        links.unlink(row);
    }
}

// The row behind one that is in a list.
fn behind(links: &CellLinks, row: u32) -> Option<u32>
    requires { row < links.now.rows }
{
    links.group_of(row)?;
    links.after(row)
}

#[test]
fn rows_are_linked_and_unlinked(rt: HostRuntime) -> Result<(), Fail> {
    let mut links = CellLinks::new(rt.alloc(), 4, 2)?;
    assert_eq!(rt; links.first(1), None);
    put(&mut links, 0, 1);
    put(&mut links, 2, 1);
    put(&mut links, 3, 1);
    take(&mut links, 2);
    assert_eq!(rt; links.first(1), Some(0));
    assert_eq!(rt; behind(&links, 0), Some(3));
    assert_eq!(rt; behind(&links, 3), None);
    assert_eq!(rt; links.first(0), None);
    assert_eq!(rt; links.group_of(2), None);
    assert_eq!(rt; links.group_of(3), Some(1));
    Ok(())
}

#[test]
fn rows_at_both_ends_are_unlinked(rt: HostRuntime) -> Result<(), Fail> {
    let mut links = CellLinks::new(rt.alloc(), 65_536, 3)?;
    put(&mut links, 5, 2);
    put(&mut links, 65_535, 2);
    put(&mut links, 0, 2);
    put(&mut links, 9, 2);
    take(&mut links, 5);
    take(&mut links, 9);
    assert_eq!(rt; links.first(2), Some(65_535));
    assert_eq!(rt; behind(&links, 65_535), Some(0));
    assert_eq!(rt; behind(&links, 0), None);
    put(&mut links, 5, 2);
    put(&mut links, 9, 0);
    take(&mut links, 65_535);
    take(&mut links, 0);
    assert_eq!(rt; links.first(2), Some(5));
    assert_eq!(rt; behind(&links, 5), None);
    take(&mut links, 5);
    assert_eq!(rt; links.first(2), None);
    assert_eq!(rt; links.first(0), Some(9));
    put(&mut links, 65_535, 2);
    assert_eq!(rt; links.first(2), Some(65_535));
    assert_eq!(rt; behind(&links, 65_535), None);
    Ok(())
}
