//! Runs a battle from each line of standard input, its name, the words in front of the two files, the script and the units,
//! with a tab between any two, in which `\n` stands for the end of a line; and prints the name and how the run ended, in the
//! same form. A line may end before the units or before the script.
#![tactic(auto)]

use battle_host::run_battle;
use sgl_outside::{OpenGate, SteadyFolder, SteadySink};
use sgl_values::Memory;
use std::alloc::Global;
use std::io;
use std::sync::Wait;
use std::thread::Threads;
use test_cases::{files_of, name_files, words_in};

/// The room of the sinks.
const ROOM: usize = 1_000_000;

/// What a run ends with where its script is accepted and there are no units: their table has no record.
const NO_HEADER: &str = "units: no header";

// How a run of the battle of one line ended, without its name.
fn answer<R: Threads + Wait + Sync>(rt: &R, alloc: Global, line: &str) -> Result<String, Memory> {
    let mut parts = line.split('\t');
    let options = parts.next().unwrap_or("");
    let script = parts.next();
    let units = parts.next();
    let words = words_of(alloc, options, script.is_some())?;
    let rules = with_line_ends(alloc, script.unwrap_or(""))?;
    let table = with_line_ends(alloc, units.unwrap_or(""))?;
    let ended = run(rt, alloc, &words, rules.as_str(), table.as_str())?;
    if script.is_some() && units.is_none() {
        said(alloc, &ended)
    } else {
        told(alloc, &ended)
    }
}

// The words in front of the files, and behind them the names of the files where there are any.
fn words_of(alloc: Global, options: &str, has_files: bool) -> Result<Vec<String>, Memory> {
    let mut words = words_in(alloc, options)?;
    if has_files {
        name_files(alloc, &mut words)?;
    }
    Ok(words)
}

// How a run ended.
#[derive(Drop)]
struct Ended {
    status: u8,
    out: SteadySink,
    err: SteadySink,
}

// Runs a battle of these words and files. Apart, so that it is proved in little time.
fn run<R: Threads + Wait + Sync>(
    rt: &R,
    alloc: Global,
    words: &[String],
    rules: &str,
    table: &str,
) -> Result<Ended, Memory> {
    let mut folder = SteadyFolder::new(files_of(alloc, rules.as_bytes(), table.as_bytes())?);
    let mut out = SteadySink::new(alloc, ROOM)?;
    let mut err = SteadySink::new(alloc, ROOM)?;
    let status = run_battle(rt, alloc, words, &mut folder, &mut out, &mut err, &OpenGate);
    let status = status.exit_status();
    Ok(Ended { status, out, err })
}

// A file, in whose text `\n` and `\r` stand for the ends of lines.
fn with_line_ends(alloc: Global, text: &str) -> Result<String, Memory> {
    let returns = text.replace(alloc, "\\r", "\r")?;
    Ok(returns.replace(alloc, "\\n", "\n")?)
}

fn line_of(line: &[u8]) -> &str {
    str::from_utf8(line).unwrap_or("no text").trim_end()
}

// What is said of a script without units.
fn said(alloc: Global, ended: &Ended) -> Result<String, Memory> {
    let line = line_of(ended.err.written());
    Ok(String::from_str(alloc, if line == NO_HEADER { "accepted" } else { line })?)
}

// The status and what was written, on one line.
fn told(alloc: Global, ended: &Ended) -> Result<String, Memory> {
    let status = ended.status;
    let line = line_of(ended.err.written());
    let worlds = str::from_utf8(ended.out.written()).unwrap_or("no text");
    let worlds = worlds.replace(alloc, "\n", "\\n")?;
    Ok(format!(in alloc; "{status}\t{line}\t{worlds}")?)
}

fn main(rt: HostRuntime) -> io::Result<()> {
    for row in rt.lines(rt.alloc()) {
        let row = row?;
        let (name, line) = row.as_str().split_once('\t').unwrap_or((row.as_str(), ""));
        match answer(&rt, rt.alloc(), line) {
            Ok(answer) => println!(rt; "{name}\t{answer}")?,
            Err(Memory) => println!(rt; "{name}\tout of memory")?,
        }
    }
    Ok(())
}
