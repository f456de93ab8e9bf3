//! Lines beside worlds.

use crate::tests::equal::assert_equal;
use battle_compile::ScriptFault;
use battle_report::{
    Look, write_reach, write_script_fault, write_summary, write_tick_fault, write_unit_fault,
    write_watch,
};
use env_table::{World, WorldBuilder};
use sgl_outside::{Failed, MemSink, SteadySink};
use sgl_typed::{EffectAttr, Schema, TickFault};
use sgl_types::{TypeFault, TypeKind};
use sgl_values::{ArithFault, Fault, Memory, Num, Place, Tag, Text};
use std::alloc::Global;
use std::test::Fail;
use test_cases::one;
use unit_csv::UnitFault;

// A schema of the const attribute `x` and the effect attribute `a`.
fn schema_of_x(alloc: Global) -> Result<Schema, Memory> {
    let effect = EffectAttr {
        name: Text::of(alloc, "a")?,
        tag: Tag::Sum,
        init: Num::zero(),
    };
    let x = Text::of(alloc, "x")?;
    Ok(Schema {
        consts: one(alloc, x)?,
        effects: one(alloc, effect)?,
    })
}

#[test]
fn a_script_is_refused_by_its_line(rt: HostRuntime) -> Result<(), Fail> {
    let mut out = SteadySink::new(rt.alloc(), 100)?;
    let place = Place { line: 1, col: 19 };
    let kind = TypeKind::UnknownName;
    let fault = ScriptFault::Types(TypeFault::At { kind, place });
    assert_equal(&rt, &write_script_fault(&fault, &mut out), &Ok(()));
    assert_equal(
        &rt,
        &out.written(),
        &b"script: unknown name at 1:19\n".as_slice(),
    );
    Ok(())
}

#[test]
fn tables_and_ticks_are_refused_by_their_lines(rt: HostRuntime) -> Result<(), Fail> {
    let alloc = rt.alloc();
    let schema = schema_of_x(alloc)?;
    let mut out = SteadySink::new(alloc, 100)?;
    for fault in [UnitFault::OutOfRange(1, 4), UnitFault::MissingColumn(1)] {
        assert_equal(&rt, &write_unit_fault(&fault, &schema, &mut out), &Ok(()));
    }
    let wanted = b"units: record 1 column 4: out of range\nunits: missing column x\n";
    assert_equal(&rt, &out.written(), &wanted.as_slice());
    let fault = Fault {
        kind: ArithFault::Overflow,
        place: Place { line: 1, col: 37 },
    };
    let mut out = SteadySink::new(alloc, 100)?;
    for fault in [
        TickFault::Script { key: 1, fault },
        TickFault::Cell { key: 1, attr: 0 },
    ] {
        assert_equal(
            &rt,
            &write_tick_fault(0, &fault, &schema, &mut out),
            &Ok(()),
        );
    }
    let wanted = b"tick 0: unit 1: overflow at 1:37\ntick 0: unit 1: a out of range\n";
    assert_equal(&rt, &out.written(), &wanted.as_slice());
    Ok(())
}

#[test]
fn a_sink_that_fails_has_a_prefix(rt: HostRuntime) -> Result<(), Fail> {
    let alloc = rt.alloc();
    let schema = schema_of_x(alloc)?;
    let mut out = MemSink::new(alloc, 100, one(alloc, 2)?)?;
    let fault = UnitFault::MissingColumn(1);
    assert_equal(
        &rt,
        &write_unit_fault(&fault, &schema, &mut out),
        &Err(Failed),
    );
    assert_equal(&rt, &out.written(), &b"units: missing column ".as_slice());
    Ok(())
}

// The world of tick 0 of three units.
fn three_units(alloc: Global) -> Result<World, Fail> {
    let mut out = WorldBuilder::with_room(alloc, 0, 3, 3)?;
    let (one, two) = (Num::whole(1), Num::whole(2));
    out.push(1, [one, Num::zero(), Num::whole(10)].as_slice())
        .ok();
    out.push(2, [two, Num::whole(3), Num::whole(5)].as_slice())
        .ok();
    out.push(3, [two, Num::whole(100), two].as_slice()).ok();
    Ok(out.finish(3))
}

#[test]
fn a_summary_has_the_sums_of_all_units(rt: HostRuntime) -> Result<(), Fail> {
    let alloc = rt.alloc();
    let mut out = SteadySink::new(alloc, 100)?;
    assert_equal(&rt, &write_summary(&three_units(alloc)?, &mut out), &Ok(()));
    let empty = WorldBuilder::with_room(alloc, 7, 0, 0)?.finish(0);
    assert_equal(&rt, &write_summary(&empty, &mut out), &Ok(()));
    assert_equal(
        &rt,
        &out.written(),
        &b"tick 0 units 3 sums 5 103 17\ntick 7 units 0 sums\n".as_slice(),
    );
    Ok(())
}

#[test]
fn the_nodes_that_were_reached_are_counted(rt: HostRuntime) -> Result<(), Fail> {
    let mut out = SteadySink::new(rt.alloc(), 100)?;
    let counts = [3, 3, 2, 2, 1];
    assert_equal(&rt, &write_reach(0, counts.as_slice(), &mut out), &Ok(()));
    assert_equal(&rt, &out.written(), &b"# reach 0: 3 3 2 2 1\n".as_slice());
    Ok(())
}

#[test]
fn looks_are_told_in_their_order(rt: HostRuntime) -> Result<(), Fail> {
    let mut out = SteadySink::new(rt.alloc(), 100)?;
    let first = Look { tick: 0, units: 3 };
    let looks = [
        first,
        first,
        Look { tick: 1, units: 2 },
        Look { tick: 2, units: 2 },
    ];
    assert_equal(&rt, &write_watch(0, looks.as_slice(), &mut out), &Ok(()));
    assert_equal(
        &rt,
        &out.written(),
        &b"# watch 0: 0:3 0:3 1:2 2:2\n".as_slice(),
    );
    Ok(())
}
