//! Writes a world as text: a line with the tick, the header, and a line for each row.
ghost use Rattle.std.specs.Prelude.{◌≡◌, ◌≤◌, ◌<◌, All, length};
ghost use Rattle.sgl_outside.specs.Sinks.{Writes};
ghost use Rattle.sgl_values.specs.World.{row_at};
ghost use Rattle.unit_csv.specs.Lines.{header_text, row_text, rows_text, tick_text, world_text};

use crate::lines::{Line, push_number, push_piece, push_signed_behind};
use env_table::World;
use sgl_outside::{Failed, Sink, put};
use sgl_typed::Schema;
use sgl_values::{CONSTS_MAX, NAME_BYTES_MAX, Text};

/// Writes a world under the names of the const attributes, one line a piece. It takes no memory. Where the sink fails,
/// a prefix of the text was written.
pub fn write_world<S: Sink>(world: &World, schema: &Schema, out: &mut S) -> Result<(), Failed>
    ensures { Writes (S.written out.old) (S.written out.new) (S.faults out.old) (S.faults out.new) result (world_text world.now.world schema.now) }
{
    match write_tick(out, world) {
        Ok(()) => match write_header(out, schema) {
            Ok(()) => write_rows(out, world),
            Err(Failed) => Err(Failed),
        },
        Err(Failed) => Err(Failed),
    }
}

fn write_tick<S: Sink>(out: &mut S, world: &World) -> Result<(), Failed>
    ensures { Writes (S.written out.old) (S.written out.new) (S.faults out.old) (S.faults out.new) result (tick_text world.now.world.tick) }
{
    let line = tick_line(world.tick());
    put(out, &line)
}

fn write_header<S: Sink>(out: &mut S, schema: &Schema) -> Result<(), Failed>
    ensures { Writes (S.written out.old) (S.written out.new) (S.faults out.old) (S.faults out.new) result (header_text schema.now.consts) }
{
    let line = header_line(schema.consts.as_slice());
    put(out, &line)
}

fn write_rows<S: Sink>(out: &mut S, world: &World) -> Result<(), Failed>
    ensures { Writes (S.written out.old) (S.written out.new) (S.faults out.old) (S.faults out.new) result (rows_text world.now.world.rows) }
{
    let mut line = Line::new();
    for row in 0..world.len() {
        match write_row(out, world, row, &mut line) {
            Ok(()) => {}
            Err(Failed) => return Err(Failed),
        }
    }
    Ok(())
}

// The line is one for all rows, since it is large to be made, and larger to be handed back.
fn write_row<S: Sink>(out: &mut S, world: &World, row: u32, line: &mut Line) -> Result<(), Failed>
    requires { row < length world.now.world.rows }
    ensures { Writes (S.written out.old) (S.written out.new) (S.faults out.old) (S.faults out.new) result (row_text (row_at world.now.world row)) }
{
    row_line(world, row, line);
    put(out, line)
}

fn tick_line(tick: u16) -> Line
    ensures { result.items ≡ tick_text tick }
{
    let mut line = Line::new();
    push_piece(&mut line, b"# tick ");
    push_number(&mut line, u64::from(tick));
    line.push(b'\n');
    line
}

fn header_line(names: &[Text]) -> Line
    requires few { length names.now ≤ CONSTS_MAX }
    requires short { All (λ name. length name ≤ NAME_BYTES_MAX) names.now }
    ensures { result.items ≡ header_text names.now }
{
    let mut line = Line::new();
    push_piece(&mut line, b"key");
    for name in names {
        line.push(b',');
        push_piece(&mut line, name.as_str().as_bytes());
    }
    line.push(b'\n');
    line
}

// Makes a line that of a row, whatever it was before.
fn row_line(world: &World, row: u32, line: &mut Line)
    requires { row < length world.now.world.rows }
    ensures { line.new.items ≡ row_text (row_at world.now.world row) }
{
    line.clear();
    push_number(line, u64::from(world.key(row)));
    for attribute in 0..world.width() {
        push_signed_behind(line, b',', world.at(row, attribute).get());
    }
    line.push(b'\n');
}
