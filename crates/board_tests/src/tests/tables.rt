//! Tests of unit tables.

ghost use Rattle.std.specs.Prelude.{◌≡◌, IfOk};

use crate::tests::equal::assert_equal;
use env_table::World;
use sgl_outside::{Failed, MemSink, SteadySink};
use sgl_typed::Schema;
use sgl_values::{List, Memory, Text, UNITS_BYTES_MAX};
use std::alloc::Global;
use std::process::Abort;
use std::test::Fail;
use test_cases::one;
use unit_csv::{UnitFault, read_units, rows_are_kept, write_world};

// A schema of one const attribute, `x`.
fn schema_of_x(alloc: Global) -> Result<Schema, Memory> {
    let x = Text::of(alloc, "x")?;
    Ok(Schema {
        consts: one(alloc, x)?,
        effects: List::new(alloc),
    })
}

// Whether a text is read as a world with this last key, of which the lines end so.
fn gives(
    alloc: Global,
    schema: &Schema,
    text: &[u8],
    last_key: u32,
    lines: &[u8],
) -> Result<bool, Fail> {
    if text.len() > UNITS_BYTES_MAX {
        return Err(Fail::new("too long"));
    }
    let world = read_units(alloc, text, schema)?;
    let mut out = SteadySink::new(alloc, 1000)?;
    let end = write_world(&world, schema, &mut out);
    Ok(end == Ok(()) && world.last_key() == last_key && out.written().ends_with(lines))
}

fn fault_of(alloc: Global, schema: &Schema, text: &[u8]) -> Option<UnitFault> {
    if text.len() > UNITS_BYTES_MAX {
        return None;
    }
    read_units(alloc, text, schema).err()
}

#[test]
fn headers_that_are_read(rt: HostRuntime) -> Result<(), Fail> {
    let schema = schema_of_x(rt.alloc())?;
    let cases: [(&[u8], u32, &[u8]); 5] = [
        (b"key,x", 0, b"# tick 0\nkey,x\n"),
        (b"\xEF\xBB\xBFkey,x\n1,5\n", 1, b"# tick 0\nkey,x\n1,5\n"),
        (b"\xEF\xBB\xBF\"key\",x\n1,5\n", 1, b"key,x\n1,5\n"),
        (b" \tkey\t , x\n 1\t,\t5 \n", 1, b"key,x\n1,5\n"),
        (b"\"key\",\" x\t\"\n\" 1 \",5\n", 1, b"key,x\n1,5\n"),
    ];
    for (text, last_key, lines) in cases {
        assert!(rt; gives(rt.alloc(), &schema, text, last_key, lines)?);
    }
    rows_are_kept();
    Ok(())
}

#[test]
fn records_that_are_read(rt: HostRuntime) -> Result<(), Fail> {
    let schema = schema_of_x(rt.alloc())?;
    let cases: [(&[u8], u32, &[u8]); 6] = [
        (b"key,x\r1,5\r2,6", 2, b"key,x\n1,5\n2,6\n"),
        (b"\n\nkey,x\n\n\r\n1,5\n\n2,6\n", 2, b"key,x\n1,5\n2,6\n"),
        (b"key,x\n0001,-0007\n2,-0\n", 2, b"key,x\n1,-7\n2,0\n"),
        (
            b"key,x\n4294967295,-1000000000000\n1,1000000000000\n",
            4_294_967_295,
            b"key,x\n1,1000000000000\n4294967295,-1000000000000\n",
        ),
        (b"x,key\n5,256\n6,255\n", 256, b"key,x\n255,6\n256,5\n"),
        (
            b"key,x\n7,1\n3,2\n5,3\n4,4\n",
            7,
            b"key,x\n3,2\n4,4\n5,3\n7,1\n",
        ),
    ];
    for (text, last_key, lines) in cases {
        assert!(rt; gives(rt.alloc(), &schema, text, last_key, lines)?);
    }
    Ok(())
}

const HEADER_FAULTS: [(&[u8], UnitFault); 11] = [
    (b"", UnitFault::NoHeader),
    (b"\xEF\xBB\xBF\n\r", UnitFault::NoHeader),
    (b"\xEF\xBB\xBF\xEF\xBB\xBFkey,x", UnitFault::ExtraColumn(1)),
    (b"\"k\"\"ey\",x", UnitFault::ExtraColumn(1)),
    (b"key,x,", UnitFault::ExtraColumn(3)),
    (b"key,Key,x", UnitFault::ExtraColumn(2)),
    (b"key,x, x ", UnitFault::TwiceColumn(3)),
    (b"key,z,z", UnitFault::ExtraColumn(2)),
    (b"key,key,z", UnitFault::TwiceColumn(2)),
    (b"x\n1", UnitFault::MissingColumn(0)),
    (b"key", UnitFault::MissingColumn(1)),
];

#[test]
fn headers_with_faults(rt: HostRuntime) -> Result<(), Fail> {
    let schema = schema_of_x(rt.alloc())?;
    for (text, fault) in HEADER_FAULTS {
        assert_equal(&rt, &fault_of(rt.alloc(), &schema, text), &Some(fault));
    }
    Ok(())
}

#[test]
fn records_with_faults(rt: HostRuntime) -> Result<(), Fail> {
    let schema = schema_of_x(rt.alloc())?;
    let cases: [(&[u8], UnitFault); 9] = [
        (b"key,x\n \n", UnitFault::Ragged(1)),
        (b"key,x\n1\nq,q\n", UnitFault::Ragged(1)),
        (b"key,x\nq,1\n1\n", UnitFault::BadNumber(1, 1)),
        (b"key,x\n1,1\n2,2,3\n", UnitFault::Ragged(2)),
        (b"key,x\n1,\n", UnitFault::BadNumber(1, 2)),
        (b"key,x\n1,-\n", UnitFault::BadNumber(1, 2)),
        (b"key,x\n1,+5\n", UnitFault::BadNumber(1, 2)),
        (b"key,x\n1,5 5\n", UnitFault::BadNumber(1, 2)),
        (b"key,x\n\"1\n\",5\n", UnitFault::BadNumber(1, 1)),
    ];
    for (text, fault) in cases {
        assert_equal(&rt, &fault_of(rt.alloc(), &schema, text), &Some(fault));
    }
    Ok(())
}

#[test]
fn numbers_with_faults(rt: HostRuntime) -> Result<(), Fail> {
    let schema = schema_of_x(rt.alloc())?;
    let cases: [(&[u8], UnitFault); 9] = [
        (b"key,x\n1,1000000000001\n", UnitFault::OutOfRange(1, 2)),
        (b"key,x\n1,-1000000000001\n", UnitFault::OutOfRange(1, 2)),
        (
            b"key,x\n1,18446744073709551616\n",
            UnitFault::OutOfRange(1, 2),
        ),
        (b"key,x\n-0,1\n", UnitFault::BadKey(1)),
        (b"key,x\n4294967296,1\n", UnitFault::BadKey(1)),
        (b"x,key\n1000000000001,0\n", UnitFault::OutOfRange(1, 1)),
        (b"key,x\n5,1\n 05 ,q\n", UnitFault::TwiceKey(2)),
        (b"x,key\n1,5\nq,5\n", UnitFault::BadNumber(2, 1)),
        (b"key,x\n1,0\n2,0\n3,0\n2,0\n", UnitFault::TwiceKey(4)),
    ];
    for (text, fault) in cases {
        assert_equal(&rt, &fault_of(rt.alloc(), &schema, text), &Some(fault));
    }
    Ok(())
}

// A text with a thousand of these digits between two others.
fn with_thousand(alloc: Global, before: &[u8], digit: u8, after: &[u8]) -> Result<Vec<u8>, Fail> {
    let mut text = Vec::from_slice(alloc, before)?;
    for _ in 0..1000 {
        text.push(digit)?;
    }
    text.extend_from_slice(after)?;
    Ok(text)
}

// A table of the keys from `first` down to 1, and then these bytes.
fn keys_down_from(alloc: Global, first: u32, more: &[u8]) -> Result<Vec<u8>, Fail> {
    let mut text = Vec::from_slice(alloc, b"key,x\n")?;
    for number in 0..first {
        let line = format!(in alloc; "{},0\n", first - number)?;
        text.extend_from_slice(line.as_str().as_bytes())?;
    }
    text.extend_from_slice(more)?;
    Ok(text)
}

#[test]
fn a_thousand_zeros_are_read(rt: HostRuntime) -> Result<(), Fail> {
    let schema = schema_of_x(rt.alloc())?;
    let zeros = with_thousand(rt.alloc(), b"key,x\n7,-", b'0', b"5\n")?;
    assert!(rt; gives(rt.alloc(), &schema, zeros.as_slice(), 7, b"key,x\n7,-5\n")?);
    Ok(())
}

#[test]
fn a_thousand_nines_are_out_of_range(rt: HostRuntime) -> Result<(), Fail> {
    let schema = schema_of_x(rt.alloc())?;
    let nines = with_thousand(rt.alloc(), b"key,x\n7,", b'9', b"\n")?;
    let fault = fault_of(rt.alloc(), &schema, nines.as_slice());
    assert_equal(&rt, &fault, &Some(UnitFault::OutOfRange(1, 2)));
    Ok(())
}

#[test]
fn a_table_may_have_65_536_records(rt: HostRuntime) -> Result<(), Fail> {
    let schema = schema_of_x(rt.alloc())?;
    let most = keys_down_from(rt.alloc(), 65_536, b"")?;
    assert!(rt; most.len() <= UNITS_BYTES_MAX);
    let world = read_units(rt.alloc(), most.as_slice(), &schema)?;
    assert_equal(&rt, &world.len(), &65_536);
    assert_equal(&rt, &world.find(65_536), &Some(65_535));
    Ok(())
}

#[test]
fn a_table_has_at_most_65_536_records(rt: HostRuntime) -> Result<(), Fail> {
    let schema = schema_of_x(rt.alloc())?;
    let more = keys_down_from(rt.alloc(), 65_536, b"q,q\n")?;
    let fault = fault_of(rt.alloc(), &schema, more.as_slice());
    assert_equal(&rt, &fault, &Some(UnitFault::TooMany));
    Ok(())
}

// Where this write fails, no more than a text is written.
fn assert_cut(
    rt: &impl Abort,
    alloc: Global,
    world: &World,
    schema: &Schema,
    write: u32,
    text: &[u8],
) -> Result<(), Fail> {
    let mut out = MemSink::new(alloc, 100, one(alloc, write)?)?;
    assert_equal(rt, &write_world(world, schema, &mut out), &Err(Failed));
    assert!(rt; out.written() == text);
    Ok(())
}

#[test]
fn a_world_is_cut_where_the_sink_fails(rt: HostRuntime) -> Result<(), Fail> {
    let schema = schema_of_x(rt.alloc())?;
    let world = read_units(rt.alloc(), b"key,x\n1,5\n2,6\n", &schema)?;
    let cases: [(u32, &[u8]); 3] = [(1, b""), (2, b"# tick 0\n"), (4, b"# tick 0\nkey,x\n1,5\n")];
    for (write, text) in cases {
        assert_cut(&rt, rt.alloc(), &world, &schema, write, text)?;
    }
    Ok(())
}
