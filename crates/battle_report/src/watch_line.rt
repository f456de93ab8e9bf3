//! The line that tells what a spectator saw.
ghost use Rattle.sgl_outside.specs.Sinks.{Writes};
ghost use Rattle.battle_report.specs.RunLines.{watch_line};

use crate::entries::{Entry, write_entries_line};
use crate::line::two_numbers;
use sgl_outside::{Failed, Sink};
use unit_csv::Line;

/// What a spectator saw at one look: the tick of the world that was shown, and the number of its units.
#[derive(Clone, Copy, Debug, PartialEq, Eq)]
pub struct Look {
    pub tick: u16,
    pub units: u32,
}

// What was seen at one look.
impl Entry for Look {
    ghost use Rattle.battle_report.specs.RunLines.{look_text};

    ghost text_of = { look_text };

    fn text(self) -> Line {
        two_numbers(b" ", u64::from(self.tick), b":", u64::from(self.units), b"")
    }
}

/// Writes what the spectator with this number saw, look by look. It takes no memory. Where the sink fails, a prefix of the
/// line was written.
pub fn write_watch<S: Sink>(number: u32, looks: &[Look], out: &mut S) -> Result<(), Failed>
    ensures { Writes (S.written out.old) (S.written out.new) (S.faults out.old) (S.faults out.new) result (watch_line number looks.now) }
{
    write_entries_line(b"# watch ", number, looks, out)
}
