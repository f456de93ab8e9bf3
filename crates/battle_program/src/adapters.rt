//! The real outside: files and streams. They tell nothing of their content, and each counts its errors.
ghost use Rattle.std.specs.Prelude.{None};

use sgl_outside::{Failed, Folder, Sink};
use std::fs::File;
use std::io::{Read, Write};

/// The files of the folder that the program runs in. One count serves all names: how often a file could not be opened
/// or read.
#[derive(Drop)]
pub struct DiskFolder<'a> {
    rt: &'a HostRuntime,
    begun: Option<File>,
    faults: u64,
}

impl<'a> DiskFolder<'a> {
    ghost use Rattle.std.specs.Prelude.{◌≡◌, ℕ, List};
    ghost use Rattle.battle_program.specs.Adapters.{disk_faults};

    /// No file is begun, and the count is 0.
    pub fn new(rt: &'a HostRuntime) -> Self
        ensures { (name : List ℕ) → disk_faults result name ≡ 0 }
    {
        DiskFolder {
            rt,
            begun: None,
            faults: 0,
        }
    }
}

impl Folder for DiskFolder<'_> {
    ghost held = { λ _. None };

    ghost left = { λ _ _. None };

    ghost use Rattle.battle_program.specs.Adapters.{disk_faults};

    ghost faults = { disk_faults };

    fn begin(&mut self, name: &str) -> Result<(), Failed> {
        match File::open(self.rt, name) {
            Ok(file) => {
                self.begun = Some(file);
                Ok(())
            }
            Err(_) => {
                self.faults = self.faults.saturating_add(1);
                Err(Failed)
            }
        }
    }

    fn read(&mut self, _name: &str, buf: &mut [u8]) -> Result<usize, Failed> {
        let Some(file) = &mut self.begun else {
            return Ok(0);
        };
        match file.read(buf) {
            Ok(count) => Ok(count),
            Err(_) => {
                self.faults = self.faults.saturating_add(1);
                Err(Failed)
            }
        }
    }
}

/// A writer of std as a sink, as standard output. A write that takes nothing of a piece that is not empty counts as an
/// error.
#[derive(Drop)]
pub struct Stream<W: Write + Drop> {
    inner: W,
    faults: u64,
}

impl<W: Write + Drop> Stream<W> {
    ghost use Rattle.std.specs.Prelude.{◌≡◌};
    ghost use Rattle.sgl_outside.specs.Causes.{HasCause};
    ghost use Rattle.battle_program.specs.Adapters.{stream_faults};

    /// The count is 0.
    pub fn new(inner: W) -> Self
        ensures { stream_faults result ≡ 0 }
    {
        Stream { inner, faults: 0 }
    }

    /// Has the writer hand on what it gathered. Where that fails, the count rises.
    pub fn finish(&mut self) -> Result<(), Failed>
        ensures { HasCause (stream_faults self.old) (stream_faults self.new) result }
    {
        match self.inner.flush() {
            Ok(()) => Ok(()),
            Err(_) => {
                self.faults = self.faults.saturating_add(1);
                Err(Failed)
            }
        }
    }
}

impl<W: Write + Drop> Sink for Stream<W> {
    ghost written = { λ _. None };

    ghost use Rattle.battle_program.specs.Adapters.{stream_faults};

    ghost faults = { stream_faults };

    fn write(&mut self, piece: &[u8]) -> Result<usize, Failed> {
        match self.inner.write(piece) {
            Ok(count) if count > 0 || piece.is_empty() => Ok(count),
            _ => {
                self.faults = self.faults.saturating_add(1);
                Err(Failed)
            }
        }
    }
}
