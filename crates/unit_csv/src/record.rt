//! The records of a unit table as units.
ghost use Rattle.std.specs.Prelude.{◌≡◌, ◌≢◌, ◌<◌, ◌≤◌, ◌+◌, ◌^◌, ◌||◌, ◌==◌, ℕ, pos, true, false, [], length, map, get_or, unsigned_abs, Some, None, IfOk, IfErr, OnOk, if◌then◌else◌};
ghost use Rattle.std.specs.BTreeMap.{btree_map_len};
ghost use Rattle.csv.specs.Records.{fields_of};
ghost use Rattle.sgl_values.specs.World.{KeysRise};
ghost use Rattle.unit_csv.specs.declared.faults.UnitFault.TheVariants.{BadKey, OutOfRange, Memory as OutOfMemory};
ghost use Rattle.unit_csv.specs.Fields.{trimmed_fields};
ghost use Rattle.unit_csv.specs.Kept.{AreWide, has_unit, rows_of};
ghost use Rattle.unit_csv.specs.Numbers.{number_of};
ghost use Rattle.unit_csv.specs.Units.{field_faults, first_of, is_key, key_fault, number_fault, placed, record_faults, unit_of, value_at, value_of};

use crate::columns::Columns;
use crate::faults::UnitFault;
use crate::fields::field_at;
use crate::numbers::{Number, number_of};
use csv::ByteRecord;
use sgl_values::{List, Memory, Num, ROWS_MAX};
use std::alloc::Global;
use std::collections::BTreeMap;

/// The values of units by their keys.
pub type Units = BTreeMap<u32, List<Num>>;

/// Adds the unit of the record with this number, or tells the record's first fault. The units are those of the earlier
/// records.
pub fn add_unit(
    alloc: Global,
    columns: &Columns,
    number: u32,
    row: &ByteRecord,
    units: &mut Units,
) -> Result<(), UnitFault>
    requires narrow { columns.now.count < 2 ^ 32 }
    requires key { columns.now.key < columns.now.count }
    requires number { number ≤ 65537 }
    ensures sound { OnOk result (first_of (record_faults columns.now.count columns.now.key (has_unit units.old) number (trimmed_fields (fields_of row.now))) ≡ None) }
    ensures rows { OnOk result (rows_of units.new ≡ placed (rows_of units.old) (unit_of columns.now.key columns.now.consts (trimmed_fields (fields_of row.now)))) }
    ensures known { OnOk result ((k : ℕ) → has_unit units.new k ≡ (k == unsigned_abs (value_at (trimmed_fields (fields_of row.now)) columns.now.key)) || has_unit units.old k) }
    ensures is_key { OnOk result (is_key (value_at (trimmed_fields (fields_of row.now)) columns.now.key) ≡ true) }
    ensures wide { OnOk result (AreWide (length columns.now.consts) units.old → AreWide (length columns.now.consts) units.new) }
    ensures counted { OnOk result (btree_map_len units.new ≡ btree_map_len units.old + 1) }
    ensures rising { OnOk result (KeysRise 0 (rows_of units.old) → KeysRise 0 (rows_of units.new)) }
    ensures fault { IfErr result (λ fault. fault ≢ OutOfMemory → first_of (record_faults columns.now.count columns.now.key (has_unit units.old) number (trimmed_fields (fields_of row.now))) ≡ Some fault) }
{
    if number > ROWS_MAX {
        return Err(UnitFault::TooMany);
    }
    if row.len() != columns.count {
        return Err(UnitFault::Ragged(number));
    }
    let numbers = numbers_of(alloc, columns.key, units, number, row)?;
    let values = values_at(alloc, columns.consts.as_slice(), numbers.as_slice())?;
    let key = key_at(numbers.as_slice(), columns.key);
    put_unit(units, key, values)?;
    Ok(())
}

// Adds a unit with a new key.
fn put_unit(units: &mut Units, key: u32, values: List<Num>) -> Result<(), Memory>
    requires fresh { has_unit units.old key ≡ false }
    requires positive { 0 < key }
    ensures rows { OnOk result (rows_of units.new ≡ placed (rows_of units.old) (record { key = key; values = values })) }
    ensures known { OnOk result ((k : ℕ) → has_unit units.new k ≡ (k == key) || has_unit units.old k) }
    ensures wide { OnOk result (AreWide (length values) units.old → AreWide (length values) units.new) }
    ensures counted { OnOk result (btree_map_len units.new ≡ btree_map_len units.old + 1) }
    ensures rising { OnOk result (KeysRise 0 (rows_of units.old) → KeysRise 0 (rows_of units.new)) }
{
    units.insert(key, values)?;
    Ok(())
}

fn values_at(alloc: Global, places: &[usize], numbers: &[Num]) -> Result<List<Num>, Memory>
    ensures { IfOk result (λ values. values ≡ map (λ place. get_or numbers.now place (pos 0)) places.now) }
{
    let mut values = List::new(alloc);
    for place in places {
        values.push(number_at(numbers, *place))?;
    }
    Ok(values)
}

fn key_at(numbers: &[Num], place: usize) -> u32
    requires { is_key (get_or numbers.now place (pos 0)) ≡ true }
    ensures value { result ≡ unsigned_abs (get_or numbers.now place (pos 0)) }
    ensures positive { 0 < result }
{
    number_at(numbers, place).get() as u32
}

fn number_at(numbers: &[Num], place: usize) -> Num
    ensures { result ≡ get_or numbers.now place (pos 0) }
{
    match numbers.get(place) {
        Some(number) => *number,
        None => Num::zero(),
    }
}

// The numbers of all fields, or the first fault of them.
fn numbers_of(
    alloc: Global,
    key: usize,
    units: &Units,
    record_number: u32,
    row: &ByteRecord,
) -> Result<List<Num>, UnitFault>
    requires narrow { length (fields_of row.now) < 2 ^ 32 }
    ensures sound { OnOk result (first_of (field_faults key (has_unit units.now) record_number 0 (trimmed_fields (fields_of row.now))) ≡ None) }
    ensures numbers { IfOk result (λ numbers. numbers ≡ map value_of (trimmed_fields (fields_of row.now))) }
    ensures key { IfOk result (λ numbers. key < length (fields_of row.now) → is_key (get_or numbers key (pos 0)) ≡ true) }
    ensures fresh { IfOk result (λ numbers. key < length (fields_of row.now) → has_unit units.now (unsigned_abs (get_or numbers key (pos 0))) ≡ false) }
    ensures fault { IfErr result (λ fault. fault ≢ OutOfMemory → first_of (field_faults key (has_unit units.now) record_number 0 (trimmed_fields (fields_of row.now))) ≡ Some fault) }
{
    let mut numbers = List::new(alloc);
    for column in 0..row.len() {
        match number_in(key, units, record_number, column, field_at(row, column)) {
            Ok(number) => numbers.push(number)?,
            Err(fault) => return Err(fault),
        }
    }
    Ok(numbers)
}

// The number of a field, or the field's fault.
fn number_in(
    key: usize,
    units: &Units,
    record_number: u32,
    column: usize,
    field: &[u8],
) -> Result<Num, UnitFault>
    requires narrow { column + 1 < 2 ^ 32 }
    ensures number { IfOk result (λ z. number_of field.now ≡ Some z) }
    ensures sound { OnOk result (number_fault key (has_unit units.now) record_number column (number_of field.now) ≡ None) }
    ensures key { IfOk result (λ z. column ≡ key → is_key z ≡ true) }
    ensures fresh { IfOk result (λ z. column ≡ key → has_unit units.now (unsigned_abs z) ≡ false) }
    ensures fault { IfErr result (λ fault. number_fault key (has_unit units.now) record_number column (number_of field.now) ≡ Some fault) }
{
    match number_of(field) {
        Number::Malformed => Err(UnitFault::BadNumber(record_number, column as u32 + 1)),
        Number::OutOfRange => Err(range_fault(key, record_number, column)),
        Number::Value(value) => {
            if column == key {
                key_in(units, record_number, value)
            } else {
                Ok(value)
            }
        }
    }
}

fn range_fault(key: usize, record_number: u32, column: usize) -> UnitFault
    requires { column + 1 < 2 ^ 32 }
    ensures { result ≡ (if column == key then BadKey record_number else OutOfRange record_number (column + 1)) }
{
    if column == key {
        UnitFault::BadKey(record_number)
    } else {
        UnitFault::OutOfRange(record_number, column as u32 + 1)
    }
}

// A key that no unit has, or its fault.
fn key_in(units: &Units, record_number: u32, value: Num) -> Result<Num, UnitFault>
    ensures same { IfOk result (λ z. z ≡ value) }
    ensures sound { OnOk result (key_fault (has_unit units.now) record_number value ≡ None) }
    ensures fault { IfErr result (λ fault. key_fault (has_unit units.now) record_number value ≡ Some fault) }
{
    match key_of(value) {
        Some(key) => {
            if units.contains_key(&key) {
                Err(UnitFault::TwiceKey(record_number))
            } else {
                Ok(value)
            }
        }
        None => Err(UnitFault::BadKey(record_number)),
    }
}

// The key that a number is, from 1 to 4,294,967,295.
fn key_of(value: Num) -> Option<u32>
    ensures { result ≡ (if is_key value then Some (unsigned_abs value) else None) }
{
    let number = value.get();
    if number >= 1 && number <= i64::from(u32::MAX) {
        Some(number as u32)
    } else {
        None
    }
}
