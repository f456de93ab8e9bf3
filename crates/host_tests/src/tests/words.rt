//! Tests of the words of the command line.

use crate::tests::equal::assert_equal;
use battle_host::{Input, RunSettings, WordsFault, read_words};
use std::alloc::Global;
use std::test::Fail;
use test_cases::words_in;

// The names of the files, or the number of units of the sample.
fn input_text(alloc: Global, input: &Input) -> Result<String, Fail> {
    let text = match input {
        Input::Files { script, units } => {
            format!(in alloc; "[{}] [{}]", script.as_str(), units.as_str())?
        }
        Input::Sample(count) => format!(in alloc; "sample {count}")?,
    };
    Ok(text)
}

// The settings in the order of their fields; a flag is told where it is set.
fn settings_text(alloc: Global, s: &RunSettings) -> Result<String, Fail> {
    let input = input_text(alloc, &s.input)?;
    let numbers = format!(in alloc; "{} {} {}", s.workers, s.seed, s.items)?;
    let engine = if s.plain { "plain" } else { "plan" };
    let summary = if s.summary { " summary" } else { "" };
    let explain = if s.explain { " explain" } else { "" };
    let watch = format!(in alloc; "{} {}", s.watch, s.looks)?;
    let text = format!(in alloc;
        "{} {input} {numbers} {engine}{summary}{explain} {watch}",
        s.ticks
    )?;
    Ok(text)
}

#[test]
fn words_decide_the_settings(rt: HostRuntime) -> Result<(), Fail> {
    let alloc = rt.alloc();
    // Words, and TICKS, the files or the sample, WORKERS, SEED, ITEMS, the engine, the flags that are set, WATCH and LOOKS.
    let rows = [
        (
            "10000 --script s --units u",
            "10000 [s] [u] 4 0 8000000 plan 0 1",
        ),
        (
            "--units u --items 1 --script s --seed 7 0",
            "0 [s] [u] 4 7 1 plan 0 1",
        ),
        (
            "--items=8000000 --units=u=v 1 --script=s",
            "1 [s] [u=v] 4 0 8000000 plan 0 1",
        ),
        (
            "0012 --script= --units - --items 00009",
            "12 [] [-] 4 0 9 plan 0 1",
        ),
        (
            "--script=-s --units  --seed=07 -- 3",
            "3 [-s] [] 4 7 8000000 plan 0 1",
        ),
        (
            "1 --script s --units u --seed 18446744073709551615",
            "1 [s] [u] 4 18446744073709551615 8000000 plan 0 1",
        ),
        (
            "1 --script s --units u --explain",
            "1 [s] [u] 4 0 8000000 plan explain 0 1",
        ),
        (
            "--explain 1 --script s --units u",
            "1 [s] [u] 4 0 8000000 plan explain 0 1",
        ),
        (
            "--units u --explain --items 9 --script s 2 --seed 7",
            "2 [s] [u] 4 7 9 plan explain 0 1",
        ),
        (
            "--units u --script s --explain -- 1",
            "1 [s] [u] 4 0 8000000 plan explain 0 1",
        ),
        (
            "1 --script=--explain --units=explain",
            "1 [--explain] [explain] 4 0 8000000 plan 0 1",
        ),
        ("--sample 0 0", "0 sample 0 4 0 8000000 plan 0 1"),
        (
            "20 --sample=65536 --summary --workers 8",
            "20 sample 65536 8 0 8000000 plan summary 0 1",
        ),
        (
            "1 --sample 00000000000000065536",
            "1 sample 65536 4 0 8000000 plan 0 1",
        ),
        (
            "1 --sample 5 --workers 1",
            "1 sample 5 1 0 8000000 plan 0 1",
        ),
        (
            "1 --workers=64 --sample 5",
            "1 sample 5 64 0 8000000 plan 0 1",
        ),
        (
            "1 --script s --units u --engine plan",
            "1 [s] [u] 4 0 8000000 plan 0 1",
        ),
        (
            "1 --engine=plain --script s --units u",
            "1 [s] [u] 4 0 8000000 plain 0 1",
        ),
        (
            "1 --script s --units u --engine plain --summary",
            "1 [s] [u] 4 0 8000000 plain summary 0 1",
        ),
        (
            "1 --script s --units u --engine plan --explain",
            "1 [s] [u] 4 0 8000000 plan explain 0 1",
        ),
        (
            "--explain --summary 1 --script s --units u",
            "1 [s] [u] 4 0 8000000 plan summary explain 0 1",
        ),
        (
            "1 --script s --units u --watch 16 --looks 1000",
            "1 [s] [u] 4 0 8000000 plan 16 1000",
        ),
        (
            "1 --script s --units u --watch=0 --looks=1",
            "1 [s] [u] 4 0 8000000 plan 0 1",
        ),
        (
            "1 --script s --units u --looks 7",
            "1 [s] [u] 4 0 8000000 plan 0 7",
        ),
        (
            "--looks 2 --watch 3 --explain --summary --engine plan --items 6 --seed 5 --workers 9 --sample 4 8",
            "8 sample 4 9 5 6 plan summary explain 3 2",
        ),
    ];
    for (line, told) in rows {
        let words = words_in(alloc, line)?;
        let settings = read_words(alloc, words.as_slice()).ok().ok_or(line)?;
        let text = settings_text(alloc, &settings)?;
        assert_equal(&rt, &(line, text.as_str()), &(line, told));
    }
    Ok(())
}

#[test]
fn other_words_are_usage(rt: HostRuntime) -> Result<(), Fail> {
    let alloc = rt.alloc();
    for line in [
        "",
        "--help",
        "-h",
        "--version",
        "help",
        "1 --script s --units u --help",
        "1 --script s --units u -V",
        "--script s --units u",
        "1",
        "1 --units u",
        "1 --script s",
        "1 --script s --units",
        "1 --script -s --units u",
        "1 --script s --units u 1",
        "1 --script s --units u --script s",
        "1 --seed 1 --seed 1 --script s --units u",
        "1 --sample 1 --sample 1",
        "1 --sample 1 --workers 1 --workers 1",
        "1 --sample 1 --engine plan --engine plan",
        "1 --sample 1 --items 1 --items 1",
        "1 --sample 1 --watch 1 --watch 1",
        "1 --sample 1 --looks 1 --looks 1",
        "1 --scr s --units u",
        "1 -s s --units u",
        "-- 1 --script s --units u",
        "10001 --script s --units u",
        " --script s --units u",
        "-1 --script s --units u",
        "+1 --script s --units u",
        "1x --script s --units u",
        "000000000000000000001 --script s --units u",
        "1 --script s --units u --seed=",
        "1 --script s --units u --seed 18446744073709551616",
        "1 --script s --units u --seed 000000000000000000000",
        "1 --script s --units u --items 0",
        "1 --script s --units u --items 8000001",
        "1 --script s --units u --sample 1",
        "1 --script s --sample 1",
        "1 --units u --sample 1",
        "1 --script s --units u --sample=",
        "1 --script= --sample 1",
        "--sample 1",
        "1 --sample",
        "1 --sample=",
        "1 --sample 65537",
        "1 --sample -1",
        "1 --sample x",
        "1 --sample 000000000000000000001",
        "10001 --sample 1",
        "1 --sample 1 --workers 0",
        "1 --sample 1 --workers 65",
        "1 --sample 1 --workers=",
        "1 --sample 1 --workers",
        "1 --sample 1 --watch 17",
        "1 --sample 1 --watch=",
        "1 --sample 1 --looks 0",
        "1 --sample 1 --looks 1001",
        "1 --sample 1 --looks=",
        "1 --sample 1 --engine Plan",
        "1 --sample 1 --engine=",
        "1 --sample 1 --engine",
        "1 --sample 1 --engine plane",
        "1 --sample 1 --engine pla",
        "1 --sample 1 --engine=plain=",
        "1 --sample 1 --explain --engine plain",
        "1 --script s --units u --engine=plain --explain",
        "1 --sample 1 --plain",
        "1 --sample 1 --tick 1",
        "--explain",
        "1 --script s --explain",
        "1 --script s --units u --explain --explain",
        "--explain 1 --script s --units u --explain",
        "1 --script s --units u --explain=1",
        "1 --script s --units u --explain=true",
        "1 --script s --units u --explain=",
        "1 --script s --units u --explain 1",
        "1 --script s --units u --expl",
        "1 --script s --units u -e",
        "1 --script --explain --units u",
        "1 --script s --units u -- --explain",
        "1 --script s --units u explain",
        "1 --sample 1 --summary --summary",
        "1 --sample 1 --summary=",
        "1 --sample 1 --summary=true",
        "1 --sample 1 --summary yes",
        "1 --sample 1 --sum",
    ] {
        let words = words_in(alloc, line)?;
        let fault = read_words(alloc, words.as_slice()).err().ok_or(line)?;
        assert_equal(&rt, &(line, fault), &(line, WordsFault::Usage));
    }
    let none = Vec::new(alloc);
    let fault = read_words(alloc, none.as_slice()).err();
    assert_equal(&rt, &fault, &Some(WordsFault::Usage));
    Ok(())
}
