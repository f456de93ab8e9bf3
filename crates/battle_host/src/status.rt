//! How a run ends.
ghost use Rattle.std.specs.Prelude.{◌≡◌};
ghost use Rattle.battle_host.specs.StatusLine.{exit_status};

use battle_compile::ScriptFault;
use sgl_typed::TickFault;
use unit_csv::UnitFault;

/// Why a script is refused.
#[derive(Clone, Copy, Debug, PartialEq, Eq)]
pub enum ScriptRefusal {
    Fault(ScriptFault),
    /// The script has more than 1,048,576 bytes.
    TooLong,
}

/// Why a unit table is refused.
#[derive(Clone, Copy, Debug, PartialEq, Eq)]
pub enum UnitRefusal {
    /// The first fault of the table.
    Fault(UnitFault),
    /// The table has more than 16,777,216 bytes.
    TooLong,
}

/// How a run ends.
#[derive(Clone, Copy, Debug, PartialEq, Eq)]
pub enum Status {
    /// All worlds were written.
    Done,
    /// The words are not those of a command line.
    Usage,
    /// A file could not be read.
    ReadFault,
    /// Standard output could not be written.
    WriteFault,
    Script(ScriptRefusal),
    Units(UnitRefusal),
    /// The tick from this world has no next world.
    Battle { tick: u16, fault: TickFault },
    /// Want of memory, which stands inside no other status.
    Memory,
}

impl Status {
    /// The exit status of the program: 0 for `Done`, 2 for `Usage`, 3 for `ReadFault`, 4 for `WriteFault`, 5 for
    /// `Script`, 6 for `Units`, 7 for `Battle` and 8 for `Memory`.
    pub fn exit_status(self) -> u8
        ensures { result ≡ exit_status self }
    {
        match self {
            Status::Done => 0,
            Status::Usage => 2,
            Status::ReadFault => 3,
            Status::WriteFault => 4,
            Status::Script(_) => 5,
            Status::Units(_) => 6,
            Status::Battle { .. } => 7,
            Status::Memory => 8,
        }
    }
}
