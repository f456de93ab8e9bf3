//! Reads a unit table into the world of tick 0, or tells the first of its faults.
ghost use Rattle.std.specs.Prelude.{◌≡◌, ◌≢◌, ◌<◌, ◌≤◌, ◌^◌, ◌∷◌, [], length, map, Ok, Err, Some, None, IfOk, IfErr, OnOk};
ghost use Rattle.std.specs.BTreeMap.{btree_map_len};
ghost use Rattle.csv.specs.Records.{fields_of};
ghost use Rattle.sgl_values.specs.World.{KeysRise};
ghost use Rattle.unit_csv.specs.declared.faults.UnitFault.TheVariants.{Memory as OutOfMemory};
ghost use Rattle.unit_csv.specs.Fields.{trimmed_fields};
ghost use Rattle.unit_csv.specs.Kept.{AreWide, rows_left, rows_of};
ghost use Rattle.unit_csv.specs.Records.{IsReading};
ghost use Rattle.unit_csv.specs.Units.{by_key, first_of, header_faults, names_of, records_faults, unit_of, units_of, units_under, world_with};

use crate::columns::{Columns, columns_of, header_fault};
use crate::faults::UnitFault;
use crate::record::{Units, add_unit};
use crate::records::{read_record, reader_of};
use csv::{ByteRecord, Reader};
use env_table::{World, WorldBuilder};
use sgl_typed::Schema;
use sgl_values::{CONSTS_MAX, Memory, ROWS_MAX, Text, UNITS_BYTES_MAX};
use std::alloc::Global;
use std::collections::BTreeMap;
use std::io::Read;

/// The world of tick 0 that a unit table of at most 16,777,216 bytes gives, or the first of its faults. `Memory` comes
/// in place of either, for want of memory alone. The last key of the world is its greatest, and 0 where it has no units.
///
/// The table is comma-separated values (RFC 4180) as the crate `csv` splits them into records and fields: comma, double
/// quotes with doubled quotes inside, both line ends, empty lines skipped. One byte-order mark at the start is dropped, and
/// spaces and tabs at both ends of each field. The first record is the header, whose columns stand in any order: `key`
/// and the const attributes. Records stand in any order of keys.
pub fn read_units(alloc: Global, text: &[u8], schema: &Schema) -> Result<World, UnitFault>
    requires { length text.now ≤ UNITS_BYTES_MAX }
    ensures world { IfOk result (λ world. units_of text.now schema.now ≡ Ok world) }
    ensures fault { IfErr result (λ fault. fault ≢ OutOfMemory → units_of text.now schema.now ≡ Err fault) }
{
    let mut reader = reader_of(alloc, text);
    let mut header = ByteRecord::new(alloc);
    if !read_record(&mut reader, &mut header)? {
        return Err(UnitFault::NoHeader);
    }
    let consts = schema.consts.as_slice();
    match header_fault(consts, &header) {
        Some(fault) => Err(fault),
        None => read_under(alloc, consts, &header, &mut reader),
    }
}

// The world of the records that are left under a header without faults, or the first fault of these records.
fn read_under<R: Read>(
    alloc: Global,
    consts: &[Text],
    header: &ByteRecord,
    reader: &mut Reader<R>,
) -> Result<World, UnitFault>
    requires few { length consts.now ≤ CONSTS_MAX }
    requires narrow { length (fields_of header.now) < 2 ^ 32 }
    requires sound { first_of (header_faults (names_of consts.now) (trimmed_fields (fields_of header.now))) ≡ None }
    requires reading { IsReading reader.old R.remaining }
    ensures world { IfOk result (λ world. units_under consts.now (trimmed_fields (fields_of header.now) ∷ rows_left reader.old R.remaining) ≡ Ok world) }
    ensures fault { IfErr result (λ fault. fault ≢ OutOfMemory → units_under consts.now (trimmed_fields (fields_of header.now) ∷ rows_left reader.old R.remaining) ≡ Err fault) }
{
    let columns = columns_of(alloc, consts, header)?;
    match read_rows(alloc, reader, &columns) {
        Ok(units) => {
            let world = world_of(alloc, consts.len() as u32, &units)?;
            Ok(world)
        }
        Err(fault) => Err(fault),
    }
}

// The units of all records that are left, or the first fault of these records.
fn read_rows<R: Read>(
    alloc: Global,
    reader: &mut Reader<R>,
    columns: &Columns,
) -> Result<Units, UnitFault>
    requires narrow { columns.now.count < 2 ^ 32 }
    requires key { columns.now.key < columns.now.count }
    requires reading { IsReading reader.old R.remaining }
    ensures sound { OnOk result (first_of (records_faults columns.now.count columns.now.key [] (rows_left reader.old R.remaining)) ≡ None) }
    ensures rows { IfOk result (λ units. rows_of units ≡ by_key (map (unit_of columns.now.key columns.now.consts) (rows_left reader.old R.remaining))) }
    ensures wide { IfOk result (AreWide (length columns.now.consts)) }
    ensures few { IfOk result (λ units. btree_map_len units ≤ ROWS_MAX) }
    ensures rising { IfOk result (λ units. KeysRise 0 (rows_of units)) }
    ensures fault { IfErr result (λ fault. fault ≢ OutOfMemory → first_of (records_faults columns.now.count columns.now.key [] (rows_left reader.old R.remaining)) ≡ Some fault) }
{
    let mut row = ByteRecord::new(alloc);
    let mut units = BTreeMap::new(alloc);
    let mut count = 0;
    'records: while read_record(reader, &mut row)? {
        match add_unit(alloc, columns, count + 1, &row, &mut units) {
            Ok(()) => count += 1,
            Err(fault) => return Err(fault),
        }
    }
    Ok(units)
}

// The world of tick 0 of these units.
fn world_of(alloc: Global, width: u32, units: &Units) -> Result<World, Memory>
    requires narrow { width ≤ CONSTS_MAX }
    requires wide { AreWide width units.now }
    requires few { btree_map_len units.now ≤ ROWS_MAX }
    requires rising { KeysRise 0 (rows_of units.now) }
    ensures { IfOk result (λ world. world ≡ record { width = width; world = world_with (rows_of units.now) }) }
{
    let mut builder = WorldBuilder::with_room(alloc, 0, width, units.len() as u32)?;
    let mut last = 0;
    for (key, values) in units.iter() {
        match builder.push(*key, values.as_slice()) {
            Ok(()) => {}
            // The keys rise, there are few of them, and there is room for all.
            Err(_) => prove!(false),
        }
        last = *key;
    }
    Ok(builder.finish(last))
}
