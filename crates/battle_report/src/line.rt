//! Parts of lines: places, numbers and names among words. Nothing here takes memory.
ghost use Rattle.std.specs.Prelude.{◌≡◌, ◌+◌, ◌≤◌, ◌++◌, [], length, IfSome, IfNone};
ghost use Rattle.sgl_outside.specs.Sinks.{Writes};
ghost use Rattle.battle_report.specs.Lines.{at_text, numbered, place_text, twice_numbered};

use sgl_outside::{Failed, Sink, put};
use sgl_values::{Place, Text};
use unit_csv::{Line, push_number, push_piece};

/// Puts a place, as `line:col`, behind a line with room for 41 bytes.
pub fn push_place(line: &mut Line, place: Place)
    requires { length line.old.items + 41 ≤ 2048 }
    ensures text { line.new.items ≡ line.old.items ++ place_text place }
    ensures length { length line.new.items ≤ length line.old.items + 41 }
{
    push_number(line, u64::from(place.line));
    line.push(b':');
    push_number(line, u64::from(place.col));
}

/// Puts where something stands in the script, as ` at line:col`, behind a line with room for 45 bytes.
pub fn push_at(line: &mut Line, place: Place)
    requires { length line.old.items + 45 ≤ 2048 }
    ensures text { line.new.items ≡ line.old.items ++ at_text place }
    ensures length { length line.new.items ≤ length line.old.items + 45 }
{
    push_piece(line, b" at ");
    push_place(line, place);
}

/// A number between two pieces.
pub fn one_number(before: &[u8], number: u64, after: &[u8]) -> Line
    requires before { length before.now ≤ 100 }
    requires after { length after.now ≤ 100 }
    ensures text { result.items ≡ numbered before.now number after.now }
    ensures length { length result.items ≤ 400 }
{
    let mut line = Line::new();
    push_piece(&mut line, before);
    push_number(&mut line, number);
    push_piece(&mut line, after);
    line
}

/// Two numbers between three pieces.
pub fn two_numbers(before: &[u8], first: u64, between: &[u8], second: u64, after: &[u8]) -> Line
    requires before { length before.now ≤ 100 }
    requires between { length between.now ≤ 100 }
    requires after { length after.now ≤ 100 }
    ensures text { result.items ≡ twice_numbered before.now first between.now second after.now }
    ensures length { length result.items ≤ 400 }
{
    let mut line = Line::new();
    push_piece(&mut line, before);
    push_number(&mut line, first);
    push_piece(&mut line, between);
    push_number(&mut line, second);
    push_piece(&mut line, after);
    line
}

/// The bytes of a name, which are none where it is missing.
pub fn name_bytes(name: Option<&Text>) -> &[u8]
    ensures some { IfSome name.entry (λ found. result.now ≡ found.now) }
    ensures none { IfNone name.entry (result.now ≡ []) }
{
    match name {
        Some(name) => name.as_str().as_bytes(),
        None => b"",
    }
}

/// Writes a number between two pieces.
pub fn put_number<S: Sink>(
    before: &[u8],
    number: u32,
    after: &[u8],
    out: &mut S,
) -> Result<(), Failed>
    requires before { length before.now ≤ 100 }
    requires after { length after.now ≤ 100 }
    ensures { Writes (S.written out.old) (S.written out.new) (S.faults out.old) (S.faults out.new) result (numbered before.now number after.now) }
{
    let line = one_number(before, u64::from(number), after);
    put(out, &line)
}

/// Writes a name between two pieces.
pub fn put_name<S: Sink>(
    before: &[u8],
    name: &[u8],
    after: &[u8],
    out: &mut S,
) -> Result<(), Failed>
    ensures { Writes (S.written out.old) (S.written out.new) (S.faults out.old) (S.faults out.new) result (before.now ++ (name.now ++ after.now)) }
{
    match put(out, before) {
        Ok(()) => match put(out, name) {
            Ok(()) => put(out, after),
            Err(Failed) => Err(Failed),
        },
        Err(Failed) => Err(Failed),
    }
}
