//! Tests of typed scripts, their copies and comparisons. That a copy is equal to its source is a clause of each; here it is
//! seen that with memory there is one.

use crate::tests::equal::assert_equal;
use sgl_typed::{
    AggUse, Attr, DeepCopy, Schema, TAction, TAgg, TExpr, TOn, TRoutine, TRule, TScript, TSpawn,
    TStmt, TTest, TWrite, are_all_same, are_same, are_same_calls, copy_call, copy_expr, copy_exprs,
    items_join, next_worlds_follow, runs_are_ticks, slots_are_own,
};
use sgl_values::{BinOp, Boxed, CmpOp, FoldKind, List, Memory, Num, Place, Text};
use std::alloc::Global;
use std::process::Abort;
use std::test::Fail;
use test_cases::{at, one};

// The call `A(u, random(7))` of this aggregate.
fn call(alloc: Global, agg: u32) -> Result<AggUse, Memory> {
    Ok(AggUse {
        agg,
        args: one(alloc, TExpr::Random(7))?,
        place: at(9),
    })
}

// The expression `-A(u, random(7)) op s0`, with its operator in this column.
fn sample(alloc: Global, op: BinOp, col: u32) -> Result<TExpr, Memory> {
    let inner = Boxed::new(alloc, TExpr::Agg(call(alloc, 0)?))?;
    let left = Boxed::new(alloc, TExpr::Neg(inner))?;
    let right = Boxed::new(alloc, TExpr::Slot(0))?;
    Ok(TExpr::Binary {
        op,
        left,
        right,
        place: at(col),
    })
}

#[test]
fn copies_of_expressions_are_the_same(rt: HostRuntime) -> Result<(), Fail> {
    let alloc = rt.alloc();
    let exprs = one(alloc, sample(alloc, BinOp::Add, 20)?)?;
    let copies = copy_exprs(alloc, exprs.as_slice())?;
    assert!(rt; are_all_same(copies.as_slice(), exprs.as_slice()));
    Ok(())
}

#[test]
fn calls_differ_by_their_aggregate(rt: HostRuntime) -> Result<(), Fail> {
    let alloc = rt.alloc();
    let used = call(alloc, 3)?;
    assert!(rt; are_same_calls(&copy_call(alloc, &used)?, &used));
    assert!(rt; !are_same_calls(&call(alloc, 4)?, &used));
    Ok(())
}

// Whether this expression is the same as its copy.
fn is_as_copied(alloc: Global, expr: &TExpr) -> Result<bool, Memory> {
    Ok(are_same(expr, &copy_expr(alloc, expr)?))
}

// Whether this expression is the same as the comparison with this operator in this column.
fn is_as_compared(alloc: Global, expr: &TExpr, op: CmpOp, col: u32) -> Result<bool, Memory> {
    Ok(are_same(expr, &sample(alloc, BinOp::Cmp(op), col)?))
}

#[test]
fn an_expression_is_the_same_as_its_copy(rt: HostRuntime) -> Result<(), Fail> {
    let expr = sample(rt.alloc(), BinOp::Cmp(CmpOp::Lt), 20)?;
    assert!(rt; is_as_copied(rt.alloc(), &expr)?);
    Ok(())
}

#[test]
fn expressions_differ_by_each_part(rt: HostRuntime) -> Result<(), Fail> {
    let expr = sample(rt.alloc(), BinOp::Cmp(CmpOp::Lt), 20)?;
    for (op, col) in [(CmpOp::Le, 20), (CmpOp::Lt, 21)] {
        assert!(rt; !is_as_compared(rt.alloc(), &expr, op, col)?);
    }
    Ok(())
}

#[test]
fn variants_differ(rt: HostRuntime) {
    assert!(rt; !are_same(&TExpr::Unit(Attr::Key), &TExpr::Target(Attr::Key)));
    assert!(rt; !are_same(&TExpr::Unit(Attr::Const(0)), &TExpr::Unit(Attr::Const(1))));
    assert!(rt; !are_same(&TExpr::Truth(true), &TExpr::Truth(false)));
    assert!(rt; !are_same(&TExpr::Combined(1), &TExpr::Slot(1)));
}

// The block `{ R(u, s0); }`.
fn calling(alloc: Global) -> Result<List<TStmt>, Memory> {
    let args = one(alloc, TExpr::Slot(0))?;
    let places = one(alloc, at(33))?;
    let call = TStmt::Call {
        routine: 1,
        args,
        places,
    };
    one(alloc, call)
}

// The block `{ perform A(u, s0); }`.
fn acting(alloc: Global) -> Result<List<TStmt>, Memory> {
    let args = one(alloc, TExpr::Slot(0))?;
    let act = TStmt::Act {
        action: 1,
        args,
        place: at(20),
    };
    one(alloc, act)
}

// The statement `if s0 { R(u, s0); } else { perform A(u, s0); }`.
fn branching(alloc: Global) -> Result<TStmt, Memory> {
    let yes = calling(alloc)?;
    let no = acting(alloc)?;
    Ok(TStmt::If {
        cond: TExpr::Slot(0),
        place: at(3),
        yes,
        no,
    })
}

// A list of this item has a copy.
fn assert_copied<T: DeepCopy>(rt: &impl Abort, alloc: Global, item: T) -> Result<(), Fail> {
    let items = one(alloc, item)?;
    assert_equal(rt, &items.deep_copy(alloc)?.len(), &1);
    Ok(())
}

// An item has a copy, and a list of it has one.
fn assert_all_copied<T: DeepCopy>(rt: &impl Abort, alloc: Global, item: T) -> Result<(), Fail> {
    let copy = item.deep_copy(alloc)?;
    assert_copied(rt, alloc, copy)
}

// An item that need not be there has a copy.
fn assert_some_copied<T: DeepCopy>(rt: &impl Abort, alloc: Global, item: T) -> Result<(), Fail> {
    let copy = Some(item).deep_copy(alloc)?;
    assert!(rt; copy.is_some());
    Ok(())
}

#[test]
fn copies_of_statements_are_made(rt: HostRuntime) -> Result<(), Fail> {
    let alloc = rt.alloc();
    assert_all_copied(&rt, alloc, branching(alloc)?)
}

#[test]
fn copies_of_routines_are_made(rt: HostRuntime) -> Result<(), Fail> {
    let alloc = rt.alloc();
    let body = one(alloc, branching(alloc)?)?;
    let params = one(alloc, 4u32)?;
    assert_copied(&rt, alloc, TRoutine { params, body })
}

// The tests `x >= 3` and `within(x, y, 4)`.
fn tests(alloc: Global) -> Result<List<TTest>, Memory> {
    let compare = TTest::Compare {
        attr: Attr::Const(1),
        op: CmpOp::Ge,
        right: TExpr::Number(Num::whole(3)),
    };
    let within = TTest::Within {
        x: Attr::Const(1),
        y: Attr::Const(2),
        radius: TExpr::Number(Num::whole(4)),
    };
    let mut tests = one(alloc, compare)?;
    tests.push(within)?;
    Ok(tests)
}

// An aggregate with one test.
fn aggregate(alloc: Global) -> Result<TAgg, Memory> {
    Ok(TAgg {
        name: Text::of(alloc, "Near")?,
        params: 1,
        kind: FoldKind::Lowest,
        place: at(8),
        attr: Attr::Const(2),
        second: Attr::Key,
        tests: tests(alloc)?,
        otherwise: Num::whole(9),
    })
}

#[test]
fn copies_of_aggregates_are_made(rt: HostRuntime) -> Result<(), Fail> {
    let alloc = rt.alloc();
    assert_copied(&rt, alloc, aggregate(alloc)?)
}

// A clause with one test and one write.
fn clause(alloc: Global) -> Result<TOn, Memory> {
    let write = TWrite {
        effect: 2,
        amount: TExpr::Slot(0),
        by: Some((Place::START, TExpr::Slot(0))),
    };
    Ok(TOn {
        tests: tests(alloc)?,
        writes: one(alloc, write)?,
    })
}

// An action with one clause.
fn action(alloc: Global) -> Result<TAction, Memory> {
    Ok(TAction {
        name: Text::of(alloc, "Hit")?,
        params: 2,
        ons: one(alloc, clause(alloc)?)?,
    })
}

#[test]
fn copies_of_actions_are_made(rt: HostRuntime) -> Result<(), Fail> {
    let alloc = rt.alloc();
    assert_copied(&rt, alloc, action(alloc)?)
}

// A rule that gives an attribute what is combined of an effect.
fn rule() -> TRule {
    TRule {
        attr: 4,
        value: TExpr::Combined(1),
    }
}

#[test]
fn copies_of_rules_are_made(rt: HostRuntime) -> Result<(), Fail> {
    assert_all_copied(&rt, rt.alloc(), rule())
}

#[test]
fn copies_of_spawns_are_made(rt: HostRuntime) -> Result<(), Fail> {
    let alloc = rt.alloc();
    let rules = one(alloc, rule())?;
    let cond = TExpr::Truth(false);
    assert_some_copied(&rt, alloc, TSpawn { cond, rules })
}

#[test]
fn copies_of_removals_are_made(rt: HostRuntime) -> Result<(), Fail> {
    assert_some_copied(&rt, rt.alloc(), TExpr::Truth(true))
}

// How many slots the copy of a script has.
fn copied_slots(alloc: Global, script: &TScript) -> Result<u32, Memory> {
    Ok(script.deep_copy(alloc)?.slots)
}

// How many const attributes the copy of a schema has.
fn copied_consts(alloc: Global, schema: &Schema) -> Result<usize, Memory> {
    Ok(schema.deep_copy(alloc)?.consts.len())
}

// The slots and the const attributes of copies of the idle script and of its schema.
fn copied_idle(alloc: Global) -> (Result<u32, Memory>, Result<usize, Memory>) {
    let script = TScript::idle(alloc);
    (
        copied_slots(alloc, &script),
        copied_consts(alloc, &script.schema),
    )
}

#[test]
fn copies_of_schemas_and_scripts_are_made(rt: HostRuntime) {
    assert_equal(&rt, &copied_idle(rt.alloc()), &(Ok(0), Ok(0)));
}

#[test]
fn laws_can_be_called() {
    items_join();
    next_worlds_follow();
    slots_are_own();
    runs_are_ticks();
}
