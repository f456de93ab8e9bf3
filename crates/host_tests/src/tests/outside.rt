//! Faults of the outside.

use crate::tests::equal::assert_equal;
use crate::tests::run::run_with;
use battle_host::Status;
use sgl_outside::{MemFolder, MemSink, OpenGate, SteadyFolder, SteadySink};
use sgl_values::Text;
use std::alloc::Global;
use std::process::Abort;
use std::sync::Wait;
use std::test::Fail;
use std::thread::Threads;
use test_cases::{files_of, one};

const SCRIPT: &[u8] = b"attr x const; main(u) { }";

const UNITS: &[u8] = b"key,x\n1,0\n";

// A run with these words whose second write fails, which tells so and has written these bytes before.
fn assert_second_fails<R: Abort + Threads + Wait + Sync>(
    rt: &R,
    alloc: Global,
    line: &str,
    first: &[u8],
) -> Result<(), Fail> {
    let mut out = MemSink::new(alloc, 1000, one(alloc, 2)?)?;
    let mut err = SteadySink::new(alloc, 100)?;
    let mut files = SteadyFolder::new(files_of(alloc, SCRIPT, UNITS)?);
    assert_equal(
        rt,
        &run_with(rt, alloc, line, &mut files, &mut out, &mut err, &OpenGate)?,
        &Status::WriteFault,
    );
    assert_equal(rt, &out.written(), &first);
    assert_equal(rt, &err.written(), &b"write fault\n".as_slice());
    Ok(())
}

#[test]
fn a_write_that_fails_is_told(rt: HostRuntime) -> Result<(), Fail> {
    assert_second_fails(&rt, rt.alloc(), "1", b"# tick 0\n")
}

#[test]
fn a_plan_that_cannot_be_written_ends_a_run(rt: HostRuntime) -> Result<(), Fail> {
    assert_second_fails(&rt, rt.alloc(), "1 --explain", b"# plan\n")
}

#[test]
fn calls_that_fail_are_told(rt: HostRuntime) -> Result<(), Fail> {
    let alloc = rt.alloc();
    for (name, call) in [("script", 0), ("script", 1), ("units", 0), ("units", 1)] {
        let failing = one(alloc, (Text::of(alloc, name)?, call))?;
        let mut files = MemFolder::new(files_of(alloc, SCRIPT, UNITS)?, failing);
        let mut out = SteadySink::new(alloc, 100)?;
        let mut err = SteadySink::new(alloc, 100)?;
        assert_equal(
            &rt,
            &run_with(&rt, alloc, "1", &mut files, &mut out, &mut err, &OpenGate)?,
            &Status::ReadFault,
        );
        assert_equal(&rt, &out.written(), &b"".as_slice());
        assert_equal(&rt, &err.written(), &b"read fault\n".as_slice());
    }
    Ok(())
}
