//! The records of a text of comma-separated values, one after the other.
ghost use Rattle.std.specs.Prelude.{◌≡◌, ◌∷◌, Some, [], true, false, IfOk, OnOk};
ghost use Rattle.csv.specs.Reading.{default_config, records, strip_bom};
ghost use Rattle.csv.specs.Records.{fields_of};
ghost use Rattle.unit_csv.specs.Records.{IsReading, records_left};

use csv::{ByteRecord, Error, Reader, ReaderBuilder};
use sgl_values::Memory;
use std::alloc::Global;
use std::io::Read;

/// A reader of all records of a text, of any length each, with comma, double quote and both line ends.
pub fn reader_of<'a>(alloc: Global, text: &'a [u8]) -> Reader<&'a [u8]>
    ensures records { records_left result (λ s. Some s.now) ≡ records default_config (strip_bom text.now) }
    ensures reading { IsReading result (λ s. Some s.now) }
{
    ReaderBuilder::new()
        .has_headers(false)
        .flexible(true)
        .from_reader(alloc, text)
}

/// Reads the next record into `row`, and tells whether there was one. A text in memory has no fault of reading, so
/// every fault is want of memory.
pub fn read_record<R: Read>(reader: &mut Reader<R>, row: &mut ByteRecord) -> Result<bool, Memory>
    requires { IsReading reader.old R.remaining }
    ensures one { IfOk result (λ found. found ≡ true → records_left reader.old R.remaining ≡ fields_of row.new ∷ records_left reader.new R.remaining) }
    ensures none { IfOk result (λ found. found ≡ false → records_left reader.old R.remaining ≡ []) }
    ensures reading { OnOk result (IsReading reader.new R.remaining) }
{
    found_or_memory(reader.read_byte_record(row))
}

fn found_or_memory(answer: Result<bool, Error>) -> Result<bool, Memory>
    ensures { IfOk result (λ found. answer ≡ Ok found) }
{
    answer.map_err(|_| Memory)
}
