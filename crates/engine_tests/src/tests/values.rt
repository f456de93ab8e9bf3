//! Tests of values and aggregates.

ghost use Rattle.std.specs.Prelude.{◌≡◌, OnOk};

use crate::tests::parts::{binary, number, zero_divisor};
use env_table::{World, WorldBuilder};
use sgl_evaluate::{Frame, NoCalls, TickContext, aggregate, evaluate};
use sgl_typed::{Attr, TAgg, TExpr, TScript, TTest};
use sgl_values::{BinOp, Boxed, CmpOp, FoldKind, List, Memory, Num, Text, Val};
use std::alloc::Global;
use std::test::Fail;
use test_cases::{at, one, small};

// `5 / 0`, with its operator in this column.
fn by_zero(alloc: Global, col: u32) -> Result<TExpr, Memory> {
    binary(alloc, BinOp::Div, number(5), number(0), col)
}

fn put(builder: &mut WorldBuilder, key: u32, x: Num, y: Num) -> Result<(), Memory>
    requires { builder.old.table.width ≡ 2 }
    ensures width { OnOk result (builder.new.table.width ≡ 2) }
    ensures last { OnOk result (builder.new.table.world.last_key ≡ key) }
{
    builder.push(key, &[x, y]).map_err(|_| Memory)
}

// Four units, each by its key and its point.
const FOUR: [(u32, i32, i32); 4] = [(1, 0, 0), (4, 3, 4), (9, -3, 4), (12, 6, 8)];

fn four(alloc: Global) -> Result<World, Memory> {
    let mut builder = WorldBuilder::with_room(alloc, 0, 2, 4)?;
    let mut last = 0;
    for number in 0..4 {
        let (key, x, y) = FOUR[number];
        put(&mut builder, key, small(x), small(y))?;
        last = key;
    }
    Ok(builder.finish(last))
}

// The value of an expression for the first unit, whose slot is 3, where no aggregate is called.
fn value_in(script: &TScript, world: &World, expr: &TExpr) -> Option<Val> {
    if world.len() == 0 {
        return None;
    }
    let frame = Frame {
        tick: TickContext {
            script,
            world,
            seed: 65_536,
        },
        unit: 0,
        slots: &[Val::N(Num::whole(3))],
        target: 0,
        combined: &[],
    };
    Some(evaluate(&NoCalls, &frame, expr))
}

// The same for the first of the four units.
fn value(alloc: Global, expr: &TExpr) -> Result<Val, Memory> {
    let world = four(alloc)?;
    let script = Boxed::new(alloc, TScript::idle(alloc))?;
    value_in(script.get(), &world, expr).ok_or(Memory)
}

#[test]
fn leaves_have_values(rt: HostRuntime) -> Result<(), Fail> {
    let alloc = rt.alloc();
    let key = value(alloc, &TExpr::Unit(Attr::Key))?;
    let slot = value(alloc, &TExpr::Slot(0))?;
    let random = value(alloc, &TExpr::Random(0))?;
    let wanted = [
        Val::N(Num::whole(1)),
        Val::N(Num::whole(3)),
        Val::N(Num::whole(1_896_895_516)),
    ];
    assert_eq!(rt; [key, slot, random], wanted);
    Ok(())
}

#[test]
fn of_two_faults_the_left_one_is_told(rt: HostRuntime) -> Result<(), Fail> {
    let alloc = rt.alloc();
    let left = by_zero(alloc, 3)?;
    let right = by_zero(alloc, 9)?;
    let sum = binary(alloc, BinOp::Add, left, right, 6)?;
    assert_eq!(rt; value(alloc, &sum)?, Val::F(zero_divisor(3)));
    Ok(())
}

#[test]
fn a_fault_behind_false_is_not_told(rt: HostRuntime) -> Result<(), Fail> {
    let alloc = rt.alloc();
    let right = by_zero(alloc, 9)?;
    let both = binary(alloc, BinOp::And, TExpr::Truth(false), right, 6)?;
    assert_eq!(rt; value(alloc, &both)?, Val::B(false));
    Ok(())
}

// A key above this one, and a place in this circle round the unit.
fn key_and_circle(alloc: Global, above: u32, radius: TExpr) -> Result<List<TTest>, Memory> {
    let mut tests = one(
        alloc,
        TTest::Compare {
            attr: Attr::Key,
            op: CmpOp::Gt,
            right: number(above),
        },
    )?;
    tests.push(TTest::Within {
        x: Attr::Const(0),
        y: Attr::Const(1),
        radius,
    })?;
    Ok(tests)
}

// The fold over units whose key is above this one, and which lie in this circle.
fn fold(alloc: Global, kind: FoldKind, above: u32, radius: TExpr) -> Result<TAgg, Memory> {
    let tests = key_and_circle(alloc, above, radius)?;
    Ok(TAgg {
        name: Text::of(alloc, "Fold")?,
        params: 0,
        kind,
        place: at(34),
        attr: Attr::Const(0),
        second: Attr::Const(1),
        tests,
        otherwise: Num::whole(7),
    })
}

// The value of a fold for the first unit.
fn folded_in(script: &TScript, world: &World, agg: &TAgg) -> Option<Val> {
    if world.len() == 0 {
        return None;
    }
    let frame = Frame {
        tick: TickContext {
            script,
            world,
            seed: 0,
        },
        unit: 0,
        slots: &[],
        target: 0,
        combined: &[],
    };
    Some(aggregate(agg, &frame, &[]))
}

// The same for the first of the four units.
fn folded(alloc: Global, kind: FoldKind, above: u32, radius: TExpr) -> Result<Val, Memory> {
    let agg = fold(alloc, kind, above, radius)?;
    let world = four(alloc)?;
    let script = Boxed::new(alloc, TScript::idle(alloc))?;
    folded_in(script.get(), &world, &agg).ok_or(Memory)
}

// Folds, each by the key that is below those that pass, the radius, and the value.
const FOLDS: [(FoldKind, u32, i32, i32); 16] = [
    (FoldKind::Count, 0, 10, 4),
    (FoldKind::Count, 0, 5, 3),
    (FoldKind::Count, 0, 4, 1),
    (FoldKind::Count, 0, 0, 1),
    (FoldKind::Count, 0, -5, 0),
    (FoldKind::Sum, 4, 10, 3),
    (FoldKind::Min, 0, 5, -3),
    (FoldKind::Max, 0, 5, 3),
    (FoldKind::Lowest, 0, 5, 9),
    (FoldKind::Highest, 0, 5, 4),
    (FoldKind::Nearest, 0, 10, 1),
    (FoldKind::Nearest, 1, 10, 4),
    (FoldKind::Nearest, 4, 10, 9),
    (FoldKind::Nearest, 9, 10, 12),
    (FoldKind::Nearest, 9, 5, 7),
    (FoldKind::Nearest, 1, -10, 7),
];

#[test]
fn folds_of_the_rows_that_pass(rt: HostRuntime) -> Result<(), Fail> {
    for (kind, above, radius, result) in FOLDS {
        let value = folded(rt.alloc(), kind, above, TExpr::Number(small(radius)))?;
        assert_eq!(rt;
            value,
            Val::N(small(result)),
            "{kind:?} above {above} within {radius}"
        );
    }
    Ok(())
}

#[test]
fn a_fault_of_the_radius_is_told(rt: HostRuntime) -> Result<(), Fail> {
    let alloc = rt.alloc();
    let radius = by_zero(alloc, 17)?;
    let faulty = folded(alloc, FoldKind::Nearest, 0, radius)?;
    assert_eq!(rt; faulty, Val::F(zero_divisor(17)));
    Ok(())
}
