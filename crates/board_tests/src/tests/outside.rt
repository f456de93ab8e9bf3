//! Tests of folders, sinks and gates.

use crate::tests::equal::assert_equal;
use sgl_outside::{
    Failed, Folder, Gate, MeetGate, MemFolder, MemSink, OpenGate, Sink, SteadyFolder, SteadySink,
    StepGate, put,
};
use sgl_values::{List, Text};
use std::sync::atomic::{AtomicBool, Ordering};
use std::test::Fail;
use std::thread;
use std::thread::Threads;
use test_cases::{files_of, one};

// The bytes of the units; the script has none.
const UNITS: &[u8] = b"abcde";

#[derive(Clone, Copy)]
enum Call {
    Begin,
    Read,
}

// What the call answers, 0 for a `begin` that passes.
fn answer_of<F: Folder>(folder: &mut F, call: Call, name: &str) -> Result<usize, Failed> {
    match call {
        Call::Begin => folder.begin(name).map(|()| 0),
        Call::Read => folder.read(name, &mut [0u8; 2]),
    }
}

#[test]
fn listed_calls_fail(rt: HostRuntime) -> Result<(), Fail> {
    let alloc = rt.alloc();
    let mut failing = List::new(alloc);
    for (name, call) in [("script", 0), ("units", 2), ("script", 1)] {
        failing.push((Text::of(alloc, name)?, call))?;
    }
    let mut folder = MemFolder::new(files_of(alloc, b"", UNITS)?, failing);
    let table = [
        (Call::Read, "units", Ok(0), "before any begin"),
        (Call::Begin, "other", Err(Failed), "a missing name"),
        (Call::Begin, "script", Err(Failed), "a listed begin"),
        (Call::Begin, "units", Ok(0), "a begin"),
        (Call::Read, "units", Ok(2), "the first read"),
        (Call::Read, "units", Err(Failed), "the listed read"),
        (Call::Read, "units", Ok(2), "goes on behind the fault"),
        (Call::Read, "units", Ok(1), "the last byte"),
        (Call::Read, "units", Ok(0), "the end"),
        (Call::Begin, "units", Ok(0), "numbers start anew"),
        (
            Call::Read,
            "script",
            Err(Failed),
            "listed, though not begun",
        ),
        (
            Call::Read,
            "units",
            Err(Failed),
            "a read of any name counts",
        ),
        (Call::Read, "units", Ok(2), "from the beginning"),
    ];
    for (call, name, want, at) in table {
        assert_equal(&rt, &(at, answer_of(&mut folder, call, name)), &(at, want));
    }
    Ok(())
}

#[test]
fn held_names_never_fail(rt: HostRuntime) -> Result<(), Fail> {
    let mut folder = SteadyFolder::new(files_of(rt.alloc(), b"", UNITS)?);
    let table = [
        (Call::Begin, "other", Err(Failed), "a missing name"),
        (Call::Begin, "script", Ok(0), "a file of no bytes"),
        (Call::Read, "script", Ok(0), "its end"),
        (Call::Begin, "units", Ok(0), "another file"),
        (Call::Read, "script", Ok(0), "none left of the file before"),
        (Call::Read, "units", Ok(2), "the first two bytes"),
        (Call::Read, "units", Ok(2), "two more"),
        (Call::Read, "units", Ok(1), "the last byte"),
        (Call::Read, "units", Ok(0), "the end"),
    ];
    for (call, name, want, at) in table {
        assert_equal(&rt, &(at, answer_of(&mut folder, call, name)), &(at, want));
    }
    let mut buf = [b'.'; 4];
    assert_equal(&rt, &folder.begin("units"), &Ok(()));
    assert_equal(&rt, &folder.read("units", &mut buf[..3]), &Ok(3));
    assert_equal(&rt, &buf, &*b"abc.");
    Ok(())
}

#[test]
fn listed_and_long_writes_fail(rt: HostRuntime) -> Result<(), Fail> {
    let alloc = rt.alloc();
    let failing = List::from_vec(vec![in alloc; 2, 6]?);
    let mut sink = MemSink::new(alloc, 5, failing)?;
    let table = [
        (b"ab".as_slice(), Ok(2), "a write"),
        (b"cd".as_slice(), Err(Failed), "a listed write"),
        (b"efgh".as_slice(), Err(Failed), "longer than the room left"),
        (b"".as_slice(), Ok(0), "of nothing"),
        (b"efg".as_slice(), Ok(3), "as long as the room left"),
        (b"".as_slice(), Err(Failed), "a listed write of nothing"),
        (b"h".as_slice(), Err(Failed), "no room left"),
    ];
    for (piece, want, at) in table {
        assert_equal(&rt, &(at, sink.write(piece)), &(at, want));
    }
    assert_equal(&rt, &sink.written(), &b"abefg".as_slice());
    Ok(())
}

#[test]
fn long_writes_fail(rt: HostRuntime) -> Result<(), Fail> {
    let mut steady = SteadySink::new(rt.alloc(), 2)?;
    let table = [
        (b"abc".as_slice(), Err(Failed)),
        (b"ab".as_slice(), Ok(2)),
        (b"c".as_slice(), Err(Failed)),
    ];
    for (piece, want) in table {
        assert_equal(&rt, &steady.write(piece), &want);
    }
    assert_equal(&rt, &steady.written(), &b"ab".as_slice());
    Ok(())
}

// A sink that takes one byte at a time.
#[derive(Drop)]
struct SlowSink {
    inner: MemSink,
}

impl Sink for SlowSink {
    ghost use Rattle.std.specs.Prelude.{Some};
    ghost use Rattle.sgl_outside.specs.Memory.{mem_sink_bytes, mem_sink_faults};

    ghost written = { λ s. Some (mem_sink_bytes s.inner) };

    ghost faults = { λ s. mem_sink_faults s.inner };

    fn write(&mut self, piece: &[u8]) -> Result<usize, Failed> {
        if piece.is_empty() {
            return Ok(0);
        }
        self.inner.write(&piece[..1])
    }
}

#[test]
fn put_writes_on_until_a_fault(rt: HostRuntime) -> Result<(), Fail> {
    let alloc = rt.alloc();
    let table = [
        (9, Ok(()), b"abcd".as_slice()),
        (3, Err(Failed), b"ab".as_slice()),
        (1, Err(Failed), b"".as_slice()),
    ];
    for (listed, want, written) in table {
        let inner = MemSink::new(alloc, 5, one(alloc, listed)?)?;
        let mut sink = SlowSink { inner };
        assert_equal(&rt, &(listed, put(&mut sink, b"abcd")), &(listed, want));
        assert_equal(&rt, &(listed, sink.inner.written()), &(listed, written));
    }
    Ok(())
}

// A gate is passed by generic code.
fn pass_beside<G: Gate, R: Threads>(rt: &R, gate: &G, first: u32, second: u32) {
    thread::join(rt, || gate.pass(first, 0), || gate.pass(second, 0));
}

#[test]
fn two_workers_meet(rt: HostRuntime) {
    for (first, second) in [(0, 64), (1, 2), (79, 78)] {
        let gate = MeetGate::new(1_000_000_000);
        pass_beside(&rt, &gate, first, second);
        assert!(rt; gate.met(), "{first} and {second}");
    }
}

#[test]
fn one_worker_meets_nobody(rt: HostRuntime) {
    let gate = MeetGate::new(10);
    gate.pass(3, 0);
    gate.pass(3, 1);
    gate.pass(200, 0);
    assert!(rt; !gate.met());
}

// Passes for two tasks, tells the spectator of the first, and answers whether the spectator has looked by the second.
fn work_two_tasks<G: Gate>(gate: &G, works: &AtomicBool, looks: &AtomicBool) -> bool {
    gate.pass(0, 0);
    works.store(true, Ordering::SeqCst);
    gate.pass(0, 1);
    looks.load(Ordering::SeqCst)
}

// Passes for two looks, tells the worker of the first, and answers whether the worker had begun by then.
fn look_twice<G: Gate>(gate: &G, works: &AtomicBool, looks: &AtomicBool) -> bool {
    gate.pass(64, 0);
    let seen = works.load(Ordering::SeqCst);
    looks.store(true, Ordering::SeqCst);
    gate.pass(64, 1);
    seen
}

#[test]
fn a_look_stands_between_two_tasks(rt: HostRuntime) {
    let gate = StepGate::new(2, 1_000_000_000);
    let works = AtomicBool::new(false);
    let looks = AtomicBool::new(false);
    let seen = thread::join(
        &rt,
        || work_two_tasks(&gate, &works, &looks),
        || look_twice(&gate, &works, &looks),
    );
    assert_equal(&rt, &seen, &(true, true));
    // No other pass waits for anything.
    gate.pass(0, 2);
    gate.pass(64, 2);
    gate.pass(5, 0);
    pass_beside(&rt, &OpenGate, 0, 1);
}
