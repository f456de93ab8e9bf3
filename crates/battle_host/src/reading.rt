//! Reading a file to its end.
ghost use Rattle.std.specs.Prelude.{◌≡◌, ◌≤◌, ℕ, List, IfOk, IfErr};
ghost use Rattle.battle_host.specs.Reading.{IsHeldWithin, ReadRefused, read_status};

use crate::status::Status;
use sgl_outside::Folder;
use std::alloc::Global;

/// Why a file was not read to its end: a fault of reading, more bytes than it may have, or want of memory.
#[derive(Clone, Copy, Debug, PartialEq, Eq, Drop)]
pub enum ReadRefusal {
    Fault,
    TooLong,
    Memory,
}

impl ReadRefusal {
    /// The status of a run whose file was not read, where a file that is too long has this one.
    pub fn status(self, too_long: Status) -> Status
        ensures { result ≡ read_status too_long self }
    {
        match self {
            ReadRefusal::Fault => Status::ReadFault,
            ReadRefusal::TooLong => too_long,
            ReadRefusal::Memory => Status::Memory,
        }
    }
}

const PIECE: usize = 4096;

/// Reads a file from its beginning to its end, and no further than one piece past the limit.
pub fn read_file<F: Folder>(
    alloc: Global,
    folder: &mut F,
    name: &str,
    limit: usize,
) -> Result<Vec<u8>, ReadRefusal>
    ensures held { F.held folder.new ≡ F.held folder.old }
    ensures whole { IfOk result (λ v. IsHeldWithin (F.held folder.old) name.now limit v.items) }
    ensures refused { IfErr result (λ e. ReadRefused (F.held folder.old) name.now limit (F.faults folder.old name.now) (F.faults folder.new name.now) e) }
    ensures later { (other : List ℕ) → F.faults folder.old other ≤ F.faults folder.new other }
{
    if folder.begin(name).is_err() {
        return Err(ReadRefusal::Fault);
    }
    let mut bytes = Vec::new(alloc);
    let mut piece = [0u8; PIECE];
    'reads: loop {
        let Ok(count) = folder.read(name, &mut piece) else {
            return Err(ReadRefusal::Fault);
        };
        if count == 0 {
            return Ok(bytes);
        }
        if bytes.extend_from_slice(&piece[..count]).is_err() {
            return Err(ReadRefusal::Memory);
        }
        if bytes.len() > limit {
            return Err(ReadRefusal::TooLong);
        }
    }
}
