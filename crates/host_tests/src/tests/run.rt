//! A run over two files, for the tests.

use battle_host::{Status, run_battle};
use sgl_outside::{Folder, Gate, OpenGate, Sink, SteadyFolder, SteadySink};
use std::alloc::Global;
use std::sync::Wait;
use std::test::Fail;
use std::thread::Threads;
use test_cases::{files_of, name_files, words_in};

/// A run with the words of a line over the two files of a folder.
pub(crate) fn run_with<R: Threads + Wait + Sync, F: Folder, O: Sink + Send, E: Sink, G: Gate>(
    rt: &R,
    alloc: Global,
    line: &str,
    files: &mut F,
    out: &mut O,
    err: &mut E,
    gate: &G,
) -> Result<Status, Fail> {
    let mut words = words_in(alloc, line)?;
    name_files(alloc, &mut words)?;
    Ok(run_battle(rt, alloc, words.as_slice(), files, out, err, gate))
}

/// What a run of one tick over these files writes to a sink of so many bytes, and its line.
pub(crate) fn written_by<R: Threads + Wait + Sync>(
    rt: &R,
    alloc: Global,
    script: &[u8],
    units: &[u8],
    room: usize,
) -> Result<(SteadySink, SteadySink), Fail> {
    let mut files = SteadyFolder::new(files_of(alloc, script, units)?);
    let mut out = SteadySink::new(alloc, room)?;
    let mut err = SteadySink::new(alloc, 100)?;
    run_with(rt, alloc, "1", &mut files, &mut out, &mut err, &OpenGate)?;
    Ok((out, err))
}
