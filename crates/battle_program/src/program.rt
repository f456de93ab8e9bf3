//! A run over the real outside.

use crate::adapters::{DiskFolder, Stream};
use battle_host::{Status, run_battle, write_status};
use sgl_outside::{Failed, OpenGate, Sink};
use std::io::{BufWriter, IsTerminal, Stdout};
use std::sync::Wait;
use std::thread::Threads;
use std::{env, io};

// Lines for a file or a pipe are gathered up to so many bytes. A terminal gets each line by itself, so that it shows worlds
// as they come.
const GATHERED_MAX: usize = 1 << 16;

// The line of a status has less than so many bytes.
const LINE_ROOM: usize = 1 << 10;

/// Runs the battle that the words of the process ask for, over the files of the folder that it runs in, and writes to
/// its two streams: first the worlds, and after them the line of the status. Words that are not UTF-8 are a faulty command
/// line; those for which there is no memory end in want of memory, as does output for whose lines there is no room. Lines
/// that are gathered are written at the end, and where that fails the run ends in a write fault. Its spectators look in
/// threads of `threads`.
pub fn run_program<R: Threads + Wait + Sync>(rt: &HostRuntime, threads: &R) -> Status {
    // A failed write of the line changes no status.
    let Ok(line) = BufWriter::with_capacity(rt.alloc(), LINE_ROOM, rt.stderr()) else {
        let _ = write_status(rt.alloc(), &mut Stream::new(rt.stderr()), Status::Memory);
        return Status::Memory;
    };
    let mut err = Stream::new(line);
    let status = match run_words(rt, threads, &mut err) {
        Ok(status) => status,
        Err(status) => {
            let _ = write_status(rt.alloc(), &mut err, status);
            status
        }
    };
    let _ = err.finish();
    status
}

// The status of a run whose line stands in `err`, or one whose line is still to be written.
fn run_words<R: Threads + Wait + Sync, E: Sink>(
    rt: &HostRuntime,
    threads: &R,
    err: &mut E,
) -> Result<Status, Status> {
    let words = words_of(rt)?;
    let mut files = DiskFolder::new(rt);
    let mut out = Stream::new(gathering(rt)?);
    let status = run_battle(
        threads,
        rt.alloc(),
        &words,
        &mut files,
        &mut out,
        err,
        &OpenGate,
    );
    match out.finish() {
        Err(Failed) if status != Status::WriteFault => Err(Status::WriteFault),
        _ => Ok(status),
    }
}

// Standard output, with room for the lines that are gathered.
fn gathering(rt: &HostRuntime) -> Result<BufWriter<Stdout>, Status> {
    let out = rt.stdout();
    let room = if out.is_terminal() { 0 } else { GATHERED_MAX };
    BufWriter::with_capacity(rt.alloc(), room, out).map_err(|_| Status::Memory)
}

// The words behind the program's name.
fn words_of(rt: &HostRuntime) -> Result<Vec<String>, Status> {
    match env::args(rt) {
        Ok(words) => words
            .skip(1)
            .collect(rt.alloc())
            .map_err(|_| Status::Memory),
        Err(error) if error.kind() == io::ErrorKind::OutOfMemory => Err(Status::Memory),
        Err(_) => Err(Status::Usage),
    }
}
