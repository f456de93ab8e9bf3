//! Files and worlds at their limits and one past them.

use crate::tests::equal::assert_equal;
use crate::tests::run::written_by;
use std::alloc::Global;
use std::test::Fail;

const SCRIPT: &[u8] = b"attr n const; main(u) { } post { spawn when n = 1 { n = 2; } }";

#[test]
fn long_scripts_are_refused(rt: HostRuntime) -> Result<(), Fail> {
    for (length, told) in [
        (1_048_576, "script: no main at 1:1048577\n"),
        (1_048_577, "script: too long\n"),
    ] {
        let script = vec![in rt.alloc(); b' '; length]?;
        let (out, err) = written_by(&rt, rt.alloc(), script.as_slice(), b"key,n\n", 100)?;
        assert_equal(&rt, &out.written(), &b"".as_slice());
        assert_equal(&rt, &err.written(), &told.as_bytes());
    }
    Ok(())
}

#[test]
fn long_tables_are_refused(rt: HostRuntime) -> Result<(), Fail> {
    let table = vec![in rt.alloc(); b'\n'; 16_777_217]?;
    let (_, err) = written_by(&rt, rt.alloc(), SCRIPT, table.as_slice(), 100)?;
    assert_equal(&rt, &err.written(), &b"units: too long\n".as_slice());
    Ok(())
}

// A table of so many units, each of which has a child.
fn parents(alloc: Global, count: u32) -> Result<String, Fail> {
    let mut table = String::from_str(alloc, "key,n\n")?;
    for number in 0..count {
        table.push_str(format!(in alloc; "{},1\n", number + 1)?.as_str())?;
    }
    Ok(table)
}

#[test]
fn children_fill_the_world(rt: HostRuntime) -> Result<(), Fail> {
    let full = parents(rt.alloc(), 32_768)?;
    let (out, err) = written_by(&rt, rt.alloc(), SCRIPT, full.as_str().as_bytes(), 2_000_000)?;
    assert!(rt; out.written().ends_with(b"\n65535,2\n65536,2\n"));
    assert_equal(&rt, &err.written(), &b"".as_slice());
    Ok(())
}

#[test]
fn no_child_is_put_into_a_full_world(rt: HostRuntime) -> Result<(), Fail> {
    let more = parents(rt.alloc(), 32_769)?;
    let (_, err) = written_by(&rt, rt.alloc(), SCRIPT, more.as_str().as_bytes(), 2_000_000)?;
    assert_equal(
        &rt,
        &err.written(),
        &b"tick 0: units above 65536\n".as_slice(),
    );
    Ok(())
}
