//! Folders in memory, which tell their bytes.
ghost use Rattle.std.specs.Prelude.{◌≡◌};
ghost use Rattle.sgl_outside.specs.Shelves.{is_planned};

use crate::shelves::Shelf;
use crate::{Failed, Folder};
use sgl_values::{List, Text};

/// Files in memory, where listed calls fail. Of several files of one name only the first is held.
///
/// Calls are numbered anew from each `begin` of any name, which is call 0; the reads that follow it have the numbers
/// from 1. Call number n on a name fails exactly where the name is listed with n, and besides only a `begin` of a
/// missing name fails. The count of every name is the number of failed calls.
#[derive(Drop)]
pub struct MemFolder {
    shelf: Shelf,
    failing: List<(Text, u32)>,
    calls: u64,
    faults: u64,
}

impl MemFolder {
    ghost use Rattle.std.specs.Prelude.{◌≡◌, ℕ, List, [], Some};
    ghost use Rattle.sgl_outside.specs.Shelves.{held_in};
    ghost use Rattle.sgl_outside.specs.Memory.{mem_folder_files, mem_folder_held, mem_folder_left, mem_folder_plan, mem_folder_calls, mem_folder_faults};

    /// A folder of these files, given by name and bytes, where the listed calls fail, given by name and number.
    pub fn new(files: List<(Text, List<u8>)>, failing: List<(Text, u32)>) -> Self
        ensures files { mem_folder_files result ≡ files }
        ensures held { mem_folder_held result ≡ Some (held_in files) }
        ensures left { (name : List ℕ) → mem_folder_left result name ≡ Some [] }
        ensures plan { mem_folder_plan result ≡ failing }
        ensures calls { mem_folder_calls result ≡ 0 }
        ensures faults { mem_folder_faults result ≡ 0 }
    {
        MemFolder {
            shelf: Shelf::new(files),
            failing,
            calls: 0,
            faults: 0,
        }
    }

    // Whether the call that is numbered last is listed for that name.
    fn is_listed(&self, name: &str) -> bool
        ensures { result ≡ is_planned self.now.failing name.now self.now.calls }
    {
        self.failing.as_slice().iter().any(|listed| listed.0.as_str() == name
            && u64::from(listed.1) == self.calls)
    }
}

impl Folder for MemFolder {
    ghost use Rattle.std.specs.Prelude.{◌≡◌, ◌||◌, not, is_some, is_err, OnErr};
    ghost use Rattle.sgl_outside.specs.Causes.{HasCauseAt, count_after, next_count};
    ghost use Rattle.sgl_outside.specs.Folders.{Begins, Reads};
    ghost use Rattle.sgl_outside.specs.Shelves.{held_in, is_planned};
    ghost use Rattle.sgl_outside.specs.Memory.{mem_folder_files, mem_folder_held, mem_folder_left, mem_folder_plan, mem_folder_calls, mem_folder_faults};

    ghost held = { mem_folder_held };

    ghost left = { mem_folder_left };

    ghost faults = { λ f _. mem_folder_faults f };

    fn begin(&mut self, name: &str) -> Result<(), Failed>
        ensures held { mem_folder_held self.new ≡ mem_folder_held self.old }
        ensures bytes { Begins (mem_folder_held self.old) (mem_folder_left self.old) (mem_folder_left self.new) name.now result }
        ensures cause { HasCauseAt (λ _. mem_folder_faults self.old) (λ _. mem_folder_faults self.new) name.now result }

        // It fails exactly where it is listed as call 0, or the name is missing.
        ensures fails { is_err result ≡ (is_planned (mem_folder_plan self.old) name.now 0 || not (is_some (held_in (mem_folder_files self.old) name.now))) }
        ensures count { mem_folder_faults self.new ≡ count_after (mem_folder_faults self.old) result }
        ensures calls { mem_folder_calls self.new ≡ 0 }
        ensures files { mem_folder_files self.new ≡ mem_folder_files self.old }
        ensures plan { mem_folder_plan self.new ≡ mem_folder_plan self.old }
    {
        self.calls = 0;
        if self.is_listed(name) || !self.shelf.begin(name) {
            self.faults = self.faults.saturating_add(1);
            return Err(Failed);
        }
        Ok(())
    }

    fn read(&mut self, name: &str, buf: &mut [u8]) -> Result<usize, Failed>
        ensures held { mem_folder_held self.new ≡ mem_folder_held self.old }
        ensures bytes { Reads (mem_folder_left self.old) (mem_folder_left self.new) name.now result buf.new }
        ensures cause { HasCauseAt (λ _. mem_folder_faults self.old) (λ _. mem_folder_faults self.new) name.now result }

        // It fails exactly where it is listed with its number, and leaves the buffer as it was.
        ensures fails { is_err result ≡ is_planned (mem_folder_plan self.old) name.now (mem_folder_calls self.new) }
        ensures buffer { OnErr result (buf.new ≡ buf.old) }
        ensures count { mem_folder_faults self.new ≡ count_after (mem_folder_faults self.old) result }
        ensures calls { mem_folder_calls self.new ≡ next_count (mem_folder_calls self.old) }
        ensures files { mem_folder_files self.new ≡ mem_folder_files self.old }
        ensures plan { mem_folder_plan self.new ≡ mem_folder_plan self.old }
    {
        self.calls = self.calls.saturating_add(1);
        if self.is_listed(name) {
            self.faults = self.faults.saturating_add(1);
            return Err(Failed);
        }
        Ok(self.shelf.read(name, buf))
    }
}

/// Files in memory that fail only at a `begin` of a missing name. Of several files of one name only the first is held.
///
/// The count of a held name is always 0. The missing names share one count, which rises at a `begin` of any of them.
#[derive(Drop)]
pub struct SteadyFolder {
    shelf: Shelf,
    faults: u64,
}

impl SteadyFolder {
    ghost use Rattle.std.specs.Prelude.{◌≡◌, ℕ, List, [], Some};
    ghost use Rattle.sgl_outside.specs.Shelves.{held_in};
    ghost use Rattle.sgl_outside.specs.Memory.{steady_folder_files, steady_folder_held, steady_folder_left, steady_folder_faults};

    /// A folder of these files, given by name and bytes.
    pub fn new(files: List<(Text, List<u8>)>) -> Self
        ensures files { steady_folder_files result ≡ files }
        ensures held { steady_folder_held result ≡ Some (held_in files) }
        ensures left { (name : List ℕ) → steady_folder_left result name ≡ Some [] }
        ensures faults { (name : List ℕ) → steady_folder_faults result name ≡ 0 }
    {
        SteadyFolder {
            shelf: Shelf::new(files),
            faults: 0,
        }
    }
}

impl Folder for SteadyFolder {
    ghost use Rattle.std.specs.Prelude.{◌≡◌, not, is_some, is_err, IsOk};
    ghost use Rattle.sgl_outside.specs.Causes.{HasCauseAt};
    ghost use Rattle.sgl_outside.specs.Folders.{Begins, Reads, CountsMissing};
    ghost use Rattle.sgl_outside.specs.Shelves.{held_in};
    ghost use Rattle.sgl_outside.specs.Memory.{steady_folder_files, steady_folder_held, steady_folder_left, steady_folder_faults};

    ghost held = { steady_folder_held };

    ghost left = { steady_folder_left };

    ghost faults = { steady_folder_faults };

    fn begin(&mut self, name: &str) -> Result<(), Failed>
        ensures held { steady_folder_held self.new ≡ steady_folder_held self.old }
        ensures bytes { Begins (steady_folder_held self.old) (steady_folder_left self.old) (steady_folder_left self.new) name.now result }
        ensures cause { HasCauseAt (steady_folder_faults self.old) (steady_folder_faults self.new) name.now result }

        // It fails exactly where the name is missing, and only then the count of the missing names rises.
        ensures fails { is_err result ≡ not (is_some (held_in (steady_folder_files self.old) name.now)) }
        ensures count { CountsMissing (held_in (steady_folder_files self.old)) (steady_folder_faults self.old) (steady_folder_faults self.new) result }
        ensures files { steady_folder_files self.new ≡ steady_folder_files self.old }
    {
        if self.shelf.begin(name) {
            Ok(())
        } else {
            self.faults = self.faults.saturating_add(1);
            Err(Failed)
        }
    }

    fn read(&mut self, name: &str, buf: &mut [u8]) -> Result<usize, Failed>
        ensures held { steady_folder_held self.new ≡ steady_folder_held self.old }
        ensures bytes { Reads (steady_folder_left self.old) (steady_folder_left self.new) name.now result buf.new }
        ensures cause { HasCauseAt (steady_folder_faults self.old) (steady_folder_faults self.new) name.now result }

        // It never fails, and no count rises.
        ensures passes { IsOk result }
        ensures count { CountsMissing (held_in (steady_folder_files self.old)) (steady_folder_faults self.old) (steady_folder_faults self.new) result }
        ensures files { steady_folder_files self.new ≡ steady_folder_files self.old }
    {
        let count = self.shelf.read(name, buf);
        Ok(count)
    }
}
