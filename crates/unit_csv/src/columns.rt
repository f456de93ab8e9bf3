//! The header of a unit table.
ghost use Rattle.std.specs.Prelude.{◌≡◌, ◌<◌, ◌≤◌, ◌+◌, ◌^◌, [], get_or, length, map, take, None, Some, IfOk};
ghost use Rattle.std.specs.Str.{bytes_eq};
ghost use Rattle.csv.specs.Records.{fields_of};
ghost use Rattle.unit_csv.specs.Fields.{trimmed_fields};
ghost use Rattle.unit_csv.specs.Units.{column_fault, column_faults, first_of, header_faults, key_name, missing_faults, names_of, place_of, stands_in};

use crate::faults::UnitFault;
use crate::fields::field_at;
use csv::ByteRecord;
use sgl_values::{CONSTS_MAX, List, Memory, Text};
use std::alloc::Global;

/// The name of the column of keys.
const KEY: &[u8] = b"key";

/// Where the columns of a table stand, counted from 0.
#[derive(Debug, Drop)]
pub struct Columns {
    /// How many there are.
    pub count: usize,
    /// That of the keys.
    pub key: usize,
    /// Those of the const attributes, in the order of their declarations.
    pub consts: List<usize>,
}

/// The columns under a header.
pub fn columns_of(alloc: Global, consts: &[Text], header: &ByteRecord) -> Result<Columns, Memory>
    ensures count { IfOk result (λ columns. columns.count ≡ length (fields_of header.now)) }
    ensures key { IfOk result (λ columns. columns.key ≡ place_of (trimmed_fields (fields_of header.now)) key_name) }
    ensures consts { IfOk result (λ columns. columns.consts ≡ map (place_of (trimmed_fields (fields_of header.now))) consts.now) }
{
    let count = header.len();
    let key = place_of(header, KEY);
    let mut places = List::new(alloc);
    for name in consts {
        places.push(place_of(header, name.as_str().as_bytes()))?;
    }
    Ok(Columns {
        count,
        key,
        consts: places,
    })
}

/// The first fault of a header.
pub fn header_fault(consts: &[Text], header: &ByteRecord) -> Option<UnitFault>
    requires few { length consts.now ≤ CONSTS_MAX }
    requires narrow { length (fields_of header.now) < 2 ^ 32 }
    ensures { result ≡ first_of (header_faults (names_of consts.now) (trimmed_fields (fields_of header.now))) }
{
    match first_column_fault(consts, header) {
        Some(fault) => Some(fault),
        None => first_missing_fault(consts, header),
    }
}

fn first_column_fault(consts: &[Text], header: &ByteRecord) -> Option<UnitFault>
    requires { length (fields_of header.now) < 2 ^ 32 }
    ensures { result ≡ first_of (column_faults (names_of consts.now) [] (trimmed_fields (fields_of header.now))) }
{
    for column in 0..header.len() {
        if let Some(fault) = column_fault(consts, header, column) {
            return Some(fault);
        }
    }
    None
}

fn column_fault(consts: &[Text], header: &ByteRecord, column: usize) -> Option<UnitFault>
    requires narrow { length (fields_of header.now) < 2 ^ 32 }
    requires column { column < length (fields_of header.now) }
    ensures { result ≡ column_fault (names_of consts.now) (take column (trimmed_fields (fields_of header.now))) (get_or (trimmed_fields (fields_of header.now)) column []) }
{
    let name = field_at(header, column);
    if stands_before(header, column, name) {
        Some(UnitFault::TwiceColumn(column as u32 + 1))
    } else if is_name(consts, name) {
        None
    } else {
        Some(UnitFault::ExtraColumn(column as u32 + 1))
    }
}

fn first_missing_fault(consts: &[Text], header: &ByteRecord) -> Option<UnitFault>
    requires { length consts.now ≤ CONSTS_MAX }
    ensures { result ≡ first_of (missing_faults (trimmed_fields (fields_of header.now)) 0 (names_of consts.now)) }
{
    if !stands_before(header, header.len(), KEY) {
        return Some(UnitFault::MissingColumn(0));
    }
    for (number, name) in consts.iter().enumerate() {
        if !stands_before(header, header.len(), name.as_str().as_bytes()) {
            return Some(UnitFault::MissingColumn(number as u32 + 1));
        }
    }
    None
}

// One of the first columns has the name.
fn stands_before(header: &ByteRecord, count: usize, name: &[u8]) -> bool
    requires { count ≤ length (fields_of header.now) }
    ensures { result ≡ stands_in name.now (take count (trimmed_fields (fields_of header.now))) }
{
    for column in 0..count {
        if are_same(field_at(header, column), name) {
            return true;
        }
    }
    false
}

// The name is that of a column of the table.
fn is_name(consts: &[Text], name: &[u8]) -> bool
    ensures { result ≡ stands_in name.now (names_of consts.now) }
{
    are_same(KEY, name) || is_const(consts, name)
}

fn is_const(consts: &[Text], name: &[u8]) -> bool
    ensures { result ≡ stands_in name.now consts.now }
{
    for attribute in consts {
        if are_same(attribute.as_str().as_bytes(), name) {
            return true;
        }
    }
    false
}

// The first column with the name, and the number of columns where none has it.
fn place_of(header: &ByteRecord, name: &[u8]) -> usize
    ensures { result ≡ place_of (trimmed_fields (fields_of header.now)) name.now }
{
    for column in 0..header.len() {
        if are_same(field_at(header, column), name) {
            return column;
        }
    }
    header.len()
}

fn are_same(a: &[u8], b: &[u8]) -> bool
    ensures { result ≡ bytes_eq a.now b.now }
{
    a == b
}
