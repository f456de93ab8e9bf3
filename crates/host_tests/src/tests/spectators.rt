//! Runs that spectators watch.

use crate::tests::equal::assert_equal;
use crate::tests::run::run_with;
use battle_host::{Status, TickFault};
use sgl_outside::{Gate, MeetGate, MemSink, OpenGate, SteadyFolder, SteadySink, StepGate};
use std::alloc::Global;
use std::sync::Wait;
use std::test::Fail;
use std::thread::Threads;
use test_cases::{files_of, one};

const SCRIPT: &[u8] =
    b"attr x const; attr n const; attr a sum = 0; action Add(u, d) on e where e.x = u.x { a <- d; } main(u) { perform Add(u, 1); } post { n = n + a; }";

const UNITS: &[u8] = b"key,x,n\n1,0,0\n2,0,0\n3,1,0\n";

const WORLD_0: &[u8] = b"# tick 0\nkey,x,n\n1,0,0\n2,0,0\n3,1,0\n";

// What a run with these words writes, and how it ends.
fn watched<R: Threads + Wait + Sync, G: Gate>(
    rt: &R,
    alloc: Global,
    line: &str,
    gate: &G,
) -> Result<(Status, SteadySink, SteadySink), Fail> {
    let mut files = SteadyFolder::new(files_of(alloc, SCRIPT, UNITS)?);
    let mut out = SteadySink::new(alloc, 10_000)?;
    let mut err = SteadySink::new(alloc, 100)?;
    let status = run_with(rt, alloc, line, &mut files, &mut out, &mut err, gate)?;
    Ok((status, out, err))
}

#[test]
fn a_refused_tick_leaves_the_last_world_in_sight(rt: HostRuntime) -> Result<(), Fail> {
    let (status, out, err) = watched(
        &rt,
        rt.alloc(),
        "1 --items 1 --watch 1 --looks 2",
        &OpenGate,
    )?;
    let fault = TickFault::Items { limit: 1 };
    assert_equal(&rt, &status, &Status::Battle { tick: 0, fault });
    assert!(rt; out.written().starts_with(WORLD_0));
    assert!(rt;
        out.written()
            .ends_with(b"\n3,1,0\n# watch 0: 0:3 0:3 0:3\n")
    );
    assert_equal(&rt, &err.written(), &b"tick 0: items above 1\n".as_slice());
    Ok(())
}

// The lines behind the rows of world 2.
fn lines_behind(written: &[u8]) -> &str {
    str::from_utf8(written)
        .unwrap_or("no text")
        .split_once("3,1,2\n")
        .map_or("no world 2", |(_, lines)| lines)
}

// The tick of a note of three units.
fn tick_of(note: &str) -> Option<u32> {
    match note {
        "0:3" => Some(0),
        "1:3" => Some(1),
        "2:3" => Some(2),
        _ => None,
    }
}

// A line of three looks and one more, in worlds of three units, whose last is that of world 2.
fn is_line(line: &str, head: &str) -> bool {
    let Some(notes) = line.strip_prefix(head) else {
        return false;
    };
    let mut before = 0;
    for note in notes.split(' ') {
        match tick_of(note) {
            Some(tick) if tick >= before => before = tick,
            _ => return false,
        }
    }
    before == 2 && notes.split(' ').count() == 4
}

// The lines of the first two spectators, and nothing behind them.
fn are_two_lines(text: &str) -> bool {
    let mut lines = text.split('\n');
    let first = lines.next().unwrap_or("");
    let second = lines.next().unwrap_or("");
    let ends = lines.next() == Some("") && lines.next().is_none();
    is_line(first, "# watch 0: ") && is_line(second, "# watch 1: ") && ends
}

#[test]
fn spectators_see_worlds_that_never_go_back(rt: HostRuntime) -> Result<(), Fail> {
    let meeting = MeetGate::new(100_000_000);
    let (status, out, _) = watched(&rt, rt.alloc(), "2 --watch 2 --looks 3", &meeting)?;
    assert_equal(&rt, &status, &Status::Done);
    assert!(rt; meeting.met());
    assert!(rt; are_two_lines(lines_behind(out.written())));
    Ok(())
}

// The gate holds the first look back until the worker begins its pass of this number, and that pass until the second look.
#[test]
fn a_look_falls_where_the_gate_lets_it(rt: HostRuntime) -> Result<(), Fail> {
    for (at, first) in [(1, "0:3 "), (2, "1:3 ")] {
        let stepping = StepGate::new(at, 100_000_000);
        let line = "2 --workers 1 --watch 1 --looks 2";
        let (status, out, _) = watched(&rt, rt.alloc(), line, &stepping)?;
        assert_equal(&rt, &status, &Status::Done);
        let lines = lines_behind(out.written());
        let notes = lines.strip_prefix("# watch 0: ").unwrap_or("");
        assert!(rt; notes.starts_with(first));
        assert!(rt; notes.ends_with(" 2:3\n"));
    }
    Ok(())
}

#[test]
fn without_spectators_no_line_is_written(rt: HostRuntime) -> Result<(), Fail> {
    let (_, plain, _) = watched(&rt, rt.alloc(), "2", &OpenGate)?;
    let (_, looks, _) = watched(&rt, rt.alloc(), "2 --looks 9", &OpenGate)?;
    let (_, none, _) = watched(&rt, rt.alloc(), "2 --watch 0", &OpenGate)?;
    assert_equal(&rt, &plain.written(), &looks.written());
    assert_equal(&rt, &plain.written(), &none.written());
    assert_equal(&rt, &lines_behind(plain.written()), &"");
    Ok(())
}

#[test]
fn sixteen_spectators_see_the_start(rt: HostRuntime) -> Result<(), Fail> {
    let (status, out, _) = watched(&rt, rt.alloc(), "0 --watch 16 --looks 2", &OpenGate)?;
    assert_equal(&rt, &status, &Status::Done);
    let mut lines = str::from_utf8(out.written())
        .unwrap_or("no text")
        .split("# watch ");
    assert_equal(&rt, &lines.next().map(str::as_bytes), &Some(WORLD_0));
    for number in 0..16 {
        let line = format!(in rt.alloc(); "{number}: 0:3 0:3 0:3\n")?;
        assert_equal(&rt, &lines.next(), &Some(line.as_str()));
    }
    assert_equal(&rt, &lines.next(), &None);
    Ok(())
}

#[test]
fn a_write_that_fails_leaves_no_line(rt: HostRuntime) -> Result<(), Fail> {
    let alloc = rt.alloc();
    // The sixth write is the first of world 1.
    let mut out = MemSink::new(alloc, 1000, one(alloc, 6)?)?;
    let mut err = SteadySink::new(alloc, 100)?;
    let mut files = SteadyFolder::new(files_of(alloc, SCRIPT, UNITS)?);
    let words = "3 --watch 16 --looks 50";
    let status = run_with(&rt, alloc, words, &mut files, &mut out, &mut err, &OpenGate)?;
    assert_equal(&rt, &status, &Status::WriteFault);
    assert_equal(&rt, &out.written(), &WORLD_0);
    assert_equal(&rt, &err.written(), &b"write fault\n".as_slice());
    Ok(())
}
