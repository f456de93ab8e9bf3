//! The line that tells how often each node of a plan was reached.
ghost use Rattle.sgl_outside.specs.Sinks.{Writes};
ghost use Rattle.battle_report.specs.RunLines.{reach_line};

use crate::entries::{Entry, write_entries_line};
use crate::line::one_number;
use sgl_outside::{Failed, Sink};
use unit_csv::Line;

// How many frames reached a node.
impl Entry for u64 {
    ghost use Rattle.battle_report.specs.RunLines.{count_text};

    ghost text_of = { count_text };

    fn text(self) -> Line {
        one_number(b" ", self, b"")
    }
}

/// Writes for each node of a plan, in order, how many frames reached it in this tick. It takes no memory. Where the sink
/// fails, a prefix of the line was written.
pub fn write_reach<S: Sink>(tick: u16, counts: &[u64], out: &mut S) -> Result<(), Failed>
    ensures { Writes (S.written out.old) (S.written out.new) (S.faults out.old) (S.faults out.new) result (reach_line tick counts.now) }
{
    write_entries_line(b"# reach ", u32::from(tick), counts, out)
}
