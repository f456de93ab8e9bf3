//! The line of a tick that is refused.
ghost use Rattle.std.specs.Prelude.{◌≡◌, ◌≤◌, ◌++◌, codes, length};
ghost use Rattle.sgl_outside.specs.Sinks.{Writes};
ghost use Rattle.battle_report.specs.FaultLines.{effect_name, fault_line, tick_line};
ghost use Rattle.battle_report.specs.Lines.{numbered, twice_numbered};

use crate::line::{name_bytes, one_number, push_at, put_name, two_numbers};
use crate::words::fault_words;
use sgl_outside::{Failed, Sink, put};
use sgl_typed::{Schema, TickFault};
use sgl_values::Fault;
use unit_csv::{Line, push_piece};

/// Writes the line of the refusal of a tick, where the attributes have these names. It takes no memory. Where the sink fails,
/// a prefix of the line was written.
pub fn write_tick_fault<S: Sink>(
    tick: u16,
    fault: &TickFault,
    schema: &Schema,
    out: &mut S,
) -> Result<(), Failed>
    ensures { Writes (S.written out.old) (S.written out.new) (S.faults out.old) (S.faults out.new) result (tick_line schema.now tick fault.now) }
{
    match *fault {
        TickFault::Items { limit } => {
            let line = items_line(tick, limit);
            put(out, &line)
        }
        TickFault::Script { key, fault } => put_fault(tick, b": unit ", key, fault, out),
        TickFault::Cell { key, attr } => put_cell(tick, key, attr, schema, out),
        TickFault::Post { key, fault } => put_fault(tick, b": post of unit ", key, fault, out),
        TickFault::KeysSpent { last, .. } => {
            let line = spent_line(tick, last);
            put(out, &line)
        }
        TickFault::UnitsFull { .. } => {
            let line = full_line(tick);
            put(out, &line)
        }
        TickFault::Memory => put(out, b"out of memory\n"),
    }
}

fn items_line(tick: u16, limit: u64) -> Line
    ensures { result.items ≡ twice_numbered (codes "tick ") tick (codes ": items above ") limit (codes "\n") }
{
    two_numbers(b"tick ", u64::from(tick), b": items above ", limit, b"\n")
}

fn spent_line(tick: u16, last: u32) -> Line
    ensures { result.items ≡ twice_numbered (codes "tick ") tick (codes ": keys spent after ") last (codes "\n") }
{
    two_numbers(
        b"tick ",
        u64::from(tick),
        b": keys spent after ",
        u64::from(last),
        b"\n",
    )
}

fn full_line(tick: u16) -> Line
    ensures { result.items ≡ numbered (codes "tick ") tick (codes ": units above 65536\n") }
{
    one_number(b"tick ", u64::from(tick), b": units above 65536\n")
}

fn put_fault<S: Sink>(
    tick: u16,
    of: &[u8],
    key: u32,
    fault: Fault,
    out: &mut S,
) -> Result<(), Failed>
    requires { length of.now ≤ 100 }
    ensures { Writes (S.written out.old) (S.written out.new) (S.faults out.old) (S.faults out.new) result (twice_numbered (codes "tick ") tick of.now key (codes ": ") ++ fault_line fault) }
{
    let mut line = two_numbers(b"tick ", u64::from(tick), of, u64::from(key), b": ");
    push_fault(&mut line, fault);
    put(out, &line)
}

fn put_cell<S: Sink>(
    tick: u16,
    key: u32,
    attr: u32,
    schema: &Schema,
    out: &mut S,
) -> Result<(), Failed>
    ensures { Writes (S.written out.old) (S.written out.new) (S.faults out.old) (S.faults out.new) result (tick_line schema.now tick (TickFault.Cell key attr)) }
{
    let line = two_numbers(b"tick ", u64::from(tick), b": unit ", u64::from(key), b": ");
    put_name(&line, effect_name(schema, attr), b" out of range\n", out)
}

// The name of an effect attribute.
fn effect_name(schema: &Schema, attr: u32) -> &[u8]
    ensures { result.now ≡ effect_name schema.now attr }
{
    let found = schema.effects.as_slice().get(attr as usize);
    name_bytes(found.map(|effect| &effect.name))
}

fn push_fault(line: &mut Line, fault: Fault)
    requires { length line.old.items ≤ 400 }
    ensures { line.new.items ≡ line.old.items ++ fault_line fault }
{
    push_piece(line, fault_words(fault.kind));
    push_at(line, fault.place);
    line.push(b'\n');
}
