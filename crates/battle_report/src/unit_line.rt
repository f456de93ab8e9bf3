//! The line of a unit table that is refused.
ghost use Rattle.std.specs.Prelude.{◌≡◌, ◌≤◌, length};
ghost use Rattle.sgl_outside.specs.Sinks.{Writes};
ghost use Rattle.battle_report.specs.FaultLines.{column_name, field_line, unit_line};

use crate::line::{name_bytes, put_name, put_number, two_numbers};
use sgl_outside::{Failed, Sink, put};
use sgl_typed::Schema;
use unit_csv::{Line, UnitFault};

/// Writes the line of a unit table's first fault, where the attributes have these names. It takes no memory. Where the sink
/// fails, a prefix of the line was written.
pub fn write_unit_fault<S: Sink>(
    fault: &UnitFault,
    schema: &Schema,
    out: &mut S,
) -> Result<(), Failed>
    ensures { Writes (S.written out.old) (S.written out.new) (S.faults out.old) (S.faults out.new) result (unit_line schema.now fault.now) }
{
    match *fault {
        UnitFault::NoHeader => put(out, b"units: no header\n"),
        UnitFault::MissingColumn(column) => {
            let name = column_name(schema, column);
            put_name(b"units: missing column ", name, b"\n", out)
        }
        UnitFault::ExtraColumn(column) => {
            put_number(b"units: extra column ", column, b"\n", out)
        }
        UnitFault::TwiceColumn(column) => put_number(b"units: column ", column, b" twice\n", out),
        UnitFault::Ragged(record) => put_number(b"units: record ", record, b": ragged\n", out),
        UnitFault::BadNumber(record, column) => {
            put_field(record, column, b": bad number\n", out)
        }
        UnitFault::OutOfRange(record, column) => {
            put_field(record, column, b": out of range\n", out)
        }
        UnitFault::BadKey(record) => put_number(b"units: record ", record, b": bad key\n", out),
        UnitFault::TwiceKey(record) => {
            put_number(b"units: record ", record, b": key twice\n", out)
        }
        UnitFault::TooMany => put(out, b"units: too many\n"),
        UnitFault::Memory => put(out, b"out of memory\n"),
    }
}

fn put_field<S: Sink>(number: u32, column: u32, after: &[u8], out: &mut S) -> Result<(), Failed>
    requires { length after.now ≤ 100 }
    ensures { Writes (S.written out.old) (S.written out.new) (S.faults out.old) (S.faults out.new) result (field_line number column after.now) }
{
    let line = field_line(number, column, after);
    put(out, &line)
}

fn field_line(number: u32, column: u32, after: &[u8]) -> Line
    requires { length after.now ≤ 100 }
    ensures { result.items ≡ field_line number column after.now }
{
    two_numbers(
        b"units: record ",
        u64::from(number),
        b" column ",
        u64::from(column),
        after,
    )
}

// The name of a column: `key`, or that of a const attribute, counted from 1.
fn column_name(schema: &Schema, column: u32) -> &[u8]
    ensures { result.now ≡ column_name schema.now column }
{
    match column.checked_sub(1) {
        None => b"key",
        Some(attr) => name_bytes(schema.consts.as_slice().get(attr as usize)),
    }
}
