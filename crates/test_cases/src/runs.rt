//! The words and the two files of a run.

use sgl_values::{List, Memory, Text};
use std::alloc::Global;

/// The words of a line, with one space between any two.
pub fn words_in(alloc: Global, line: &str) -> Result<Vec<String>, Memory> {
    let mut words = Vec::new(alloc);
    for word in line.split(' ') {
        words.push(String::from_str(alloc, word)?)?;
    }
    Ok(words)
}

/// Puts the words that name the two files behind these.
pub fn name_files(alloc: Global, words: &mut Vec<String>) -> Result<(), Memory> {
    for word in ["--script", "script", "--units", "units"] {
        words.push(String::from_str(alloc, word)?)?;
    }
    Ok(())
}

/// The two files, `script` and `units`.
pub fn files_of(
    alloc: Global,
    script: &[u8],
    units: &[u8],
) -> Result<List<(Text, List<u8>)>, Memory> {
    let mut files = List::new(alloc);
    files.push((Text::of(alloc, "script")?, bytes_of(alloc, script)?))?;
    files.push((Text::of(alloc, "units")?, bytes_of(alloc, units)?))?;
    Ok(files)
}

fn bytes_of(alloc: Global, bytes: &[u8]) -> Result<List<u8>, Memory> {
    Ok(List::from_vec(Vec::from_slice(alloc, bytes)?))
}
