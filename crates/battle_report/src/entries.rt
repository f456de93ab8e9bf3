//! The line of a numbered head and the entries behind it.
ghost use Rattle.std.specs.Prelude.{◌≡◌, ◌≤◌, ℕ, List, flat_map, length};
ghost use Rattle.sgl_outside.specs.Sinks.{Writes};
ghost use Rattle.battle_report.specs.RunLines.{entries_line};

use crate::line::put_number;
use sgl_outside::{Failed, Sink, put};
use unit_csv::Line;

/// What stands behind a head.
pub trait Entry: Copy {
    /// The text of it.
    ghost text_of: { Self → List ℕ };

    /// The text of it.
    fn text(self) -> Line
        ensures { result.items ≡ text_of self };
}

/// Writes the line of a head, its number and its entries, in order. Where the sink fails, a prefix of
/// the line was written.
pub fn write_entries_line<E: Entry, S: Sink>(
    head: &[u8],
    number: u32,
    entries: &[E],
    out: &mut S,
) -> Result<(), Failed>
    requires { length head.now ≤ 100 }
    ensures { Writes (S.written out.old) (S.written out.new) (S.faults out.old) (S.faults out.new) result (entries_line head.now number E.text_of entries.now) }
{
    match put_number(head, number, b":", out) {
        Ok(()) => match write_entries(entries, out) {
            Ok(()) => put(out, b"\n"),
            Err(Failed) => Err(Failed),
        },
        Err(Failed) => Err(Failed),
    }
}

fn write_entries<E: Entry, S: Sink>(entries: &[E], out: &mut S) -> Result<(), Failed>
    ensures { Writes (S.written out.old) (S.written out.new) (S.faults out.old) (S.faults out.new) result (flat_map E.text_of entries.now) }
{
    for entry in entries {
        match write_entry(*entry, out) {
            Ok(()) => {}
            Err(Failed) => return Err(Failed),
        }
    }
    Ok(())
}

fn write_entry<E: Entry, S: Sink>(entry: E, out: &mut S) -> Result<(), Failed>
    ensures { Writes (S.written out.old) (S.written out.new) (S.faults out.old) (S.faults out.new) result (E.text_of entry) }
{
    let text = entry.text();
    put(out, &text)
}
