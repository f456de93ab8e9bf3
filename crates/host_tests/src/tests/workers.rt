//! Runs by several workers.

use crate::tests::equal::assert_equal;
use crate::tests::run::run_with;
use battle_host::Status;
use sgl_outside::{Gate, MeetGate, OpenGate, SteadyFolder, SteadySink};
use std::alloc::Global;
use std::sync::Wait;
use std::test::Fail;
use std::thread::Threads;
use test_cases::files_of;

// Each unit hits the weakest of the other side, where there is one within reach.
const SCRIPT: &[u8] =
    b"attr side const; attr x const; attr n const; attr a sum = 0; aggregate Near(u) = count e where e.side <> u.side and e.x >= u.x - 1 and e.x <= u.x + 1; action Hit(u, d) on e where e.x = u.x + 1 { a <- d; } main(u) { if Near(u) > 0 { perform Hit(u, 3); } } post { n = n - a; remove when n < 0; }";

// So many units take two tasks.
const UNITS: u32 = 128;

// Units of two sides by turns, side by side.
fn units(alloc: Global) -> Result<Vec<u8>, Fail> {
    let mut text = Vec::new(alloc);
    text.extend_from_slice(b"key,side,x,n\n")?;
    for key in 1..=UNITS {
        let line = format!(in alloc; "{key},{},{key},{}\n", key % 2, key % 5)?;
        text.extend_from_slice(line.as_bytes())?;
    }
    Ok(text)
}

// What a run with these words writes, and how it ends.
fn fought<R: Threads + Wait + Sync, G: Gate>(
    rt: &R,
    alloc: Global,
    line: &str,
    gate: &G,
) -> Result<(Status, SteadySink), Fail> {
    let units = units(alloc)?;
    let mut files = SteadyFolder::new(files_of(alloc, SCRIPT, units.as_slice())?);
    let mut out = SteadySink::new(alloc, 20_000)?;
    let mut err = SteadySink::new(alloc, 100)?;
    let status = run_with(rt, alloc, line, &mut files, &mut out, &mut err, gate)?;
    Ok((status, out))
}

// World 1.
fn world_1(written: &[u8]) -> &str {
    str::from_utf8(written)
        .unwrap_or("no text")
        .split_once("# tick 1\n")
        .map_or("no world 1", |(_, lines)| lines)
}

// Each of two workers waits before its first task until the other begins its own.
#[test]
fn two_workers_work_at_once(rt: HostRuntime) -> Result<(), Fail> {
    let meeting = MeetGate::new(100_000_000);
    let (status, out) = fought(&rt, rt.alloc(), "1 --workers 2", &meeting)?;
    assert_equal(&rt, &status, &Status::Done);
    assert!(rt; meeting.met());
    let (status, alone) = fought(&rt, rt.alloc(), "1 --engine plain", &OpenGate)?;
    assert_equal(&rt, &status, &Status::Done);
    assert_equal(&rt, &out.written(), &alone.written());
    assert!(rt;
        world_1(out.written()).starts_with("key,side,x,n\n1,1,1,1\n3,1,3,0\n4,0,4,1\n8,0,8,0\n")
    );
    Ok(())
}
