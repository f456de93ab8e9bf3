//! The line that tells of how a run ended.
ghost use Rattle.sgl_outside.specs.Sinks.{Writes};
ghost use Rattle.battle_host.specs.StatusLine.{line_of};

use crate::status::{ScriptRefusal, Status, UnitRefusal};
use battle_report::{write_script_fault, write_tick_fault, write_unit_fault};
use sgl_outside::{Failed, Sink, put};
use sgl_typed::Schema;

/// Writes the line of a status, where the attributes have these names; nothing where all worlds were written.
pub fn write_line<E: Sink>(err: &mut E, schema: &Schema, status: Status) -> Result<(), Failed>
    ensures { Writes (E.written err.old) (E.written err.new) (E.faults err.old) (E.faults err.new) result (line_of schema.now status) }
{
    match status {
        Status::Done => put(err, b""),
        Status::Usage => put(
            err,
            b"usage: battle TICKS --script FILE --units FILE or battle TICKS --sample N\n",
        ),
        Status::ReadFault => put(err, b"read fault\n"),
        Status::WriteFault => put(err, b"write fault\n"),
        Status::Script(ScriptRefusal::Fault(fault)) => write_script_fault(&fault, err),
        Status::Script(ScriptRefusal::TooLong) => put(err, b"script: too long\n"),
        Status::Units(UnitRefusal::Fault(fault)) => write_unit_fault(&fault, schema, err),
        Status::Units(UnitRefusal::TooLong) => put(err, b"units: too long\n"),
        Status::Battle { tick, fault } => write_tick_fault(tick, &fault, schema, err),
        Status::Memory => put(err, b"out of memory\n"),
    }
}
