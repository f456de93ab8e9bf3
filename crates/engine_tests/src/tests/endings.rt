//! Tests of the end of a tick.

ghost use Rattle.std.specs.Prelude.{◌≡◌, ◌≤◌, [], length, IfOk};
ghost use Rattle.sgl_typed.specs.declared.script.Attr.TheVariants.{Const};
ghost use Rattle.sgl_typed.specs.declared.script.TExpr.TheVariants.{Unit as OfUnit};
ghost use Rattle.engine_tests.specs.Samples.{losses, lost, one_attribute, spread};

use crate::tests::parts::{binary, number};
use effect_combine::combine_items;
use env_table::{World, WorldBuilder};
use sgl_typed::{Attr, Schema, TExpr, TRule, TScript, TSpawn};
use sgl_values::{BinOp, Boxed, CmpOp, List, Memory, Num, Text};
use std::alloc::Global;
use std::test::Fail;
use test_cases::one;
use tick_postprocess::{PostFault, post};

// `attr x const;`
fn schema(alloc: Global) -> Result<Schema, Memory>
    ensures { IfOk result (λ schema. schema ≡ one_attribute) }
{
    let name = Text::of(alloc, "x")?;
    let consts = one(alloc, name)?;
    Ok(Schema {
        consts,
        effects: List::new(alloc),
    })
}

// The attribute `x` of the unit.
fn x() -> TExpr
    ensures { result ≡ OfUnit (Const 0) }
{
    TExpr::Unit(Attr::Const(0))
}

// `x = x - 1;`
fn rules(alloc: Global) -> Result<List<TRule>, Memory>
    ensures { IfOk result (λ rules. rules ≡ losses) }
{
    let value = binary(alloc, BinOp::Sub, x(), number(1), 7)?;
    one(alloc, TRule { attr: 0, value })
}

// `spawn when x > 3 { x = x * 10; }`
fn spawn(alloc: Global) -> Result<Option<TSpawn>, Memory>
    ensures { IfOk result (λ spawn. spawn ≡ spread) }
{
    let cond = binary(alloc, BinOp::Cmp(CmpOp::Gt), x(), number(3), 14)?;
    let value = binary(alloc, BinOp::Mul, x(), number(10), 26)?;
    let rules = one(alloc, TRule { attr: 0, value })?;
    Ok(Some(TSpawn { cond, rules }))
}

// `remove when x < 1;`
fn removal(alloc: Global) -> Result<Option<TExpr>, Memory>
    ensures { IfOk result (λ removal. removal ≡ lost) }
{
    let cond = binary(alloc, BinOp::Cmp(CmpOp::Lt), x(), number(1), 15)?;
    Ok(Some(cond))
}

// A script of these parts.
fn script(
    alloc: Global,
    schema: Schema,
    rules: List<TRule>,
    spawn: Option<TSpawn>,
    removal: Option<TExpr>,
) -> TScript
    requires schema { schema ≡ one_attribute }
    requires rules { rules ≡ losses }
    requires spawn { spawn ≡ spread }
    requires removal { removal ≡ lost }
    ensures { result.schema.effects ≡ [] }
{
    TScript {
        schema,
        aggs: List::new(alloc),
        actions: List::new(alloc),
        routines: List::new(alloc),
        main: List::new(alloc),
        slots: 0,
        rules,
        spawn,
        removal,
    }
}

// Two units of tick 3, of which one has little left, with this last key.
fn two(alloc: Global, last_key: u32) -> Result<World, Memory>
    requires { 9 ≤ last_key }
    ensures width { IfOk result (λ world. world.width ≡ 1) }
    ensures tick { IfOk result (λ world. world.world.tick ≡ 3) }
    ensures rows { IfOk result (λ world. length world.world.rows ≡ 2) }
{
    let mut builder = WorldBuilder::with_room(alloc, 3, 1, 2)?;
    match builder.push(4, &[Num::whole(1)]) {
        Ok(()) => {}
        Err(_) => return Err(Memory),
    }
    match builder.push(9, &[Num::whole(5)]) {
        Ok(()) => {}
        Err(_) => return Err(Memory),
    }
    Ok(builder.finish(last_key))
}

// The script of all of these parts, on the heap, since a function that gives up a whole script is
// long to prove.
fn losing(alloc: Global) -> Result<Boxed<TScript>, Memory>
    ensures { IfOk result (λ script. script.schema.effects ≡ []) }
{
    let schema = schema(alloc)?;
    let rules = rules(alloc)?;
    let spawn = spawn(alloc)?;
    let removal = removal(alloc)?;
    Boxed::new(alloc, script(alloc, schema, rules, spawn, removal))
}

// What becomes of the two units.
fn ended(alloc: Global, last_key: u32) -> Result<Result<World, PostFault>, Memory>
    requires { 9 ≤ last_key }
{
    let world = two(alloc, last_key)?;
    let combined = combine_items(alloc, 2, &List::new(alloc), &[])?;
    let out = WorldBuilder::with_room(alloc, 4, 1, 4)?;
    let script = losing(alloc)?;
    Ok(post(script.get(), &world, &combined, 0, out))
}

// The key and the value of a row, where there is one.
fn row_of(world: &World, row: u32) -> (u32, Num) {
    if world.len() > row && world.width() > 0 {
        (world.key(row), world.at(row, 0))
    } else {
        (0, Num::zero())
    }
}

#[test]
fn a_unit_is_removed_by_its_new_value_and_another_has_a_child(rt: HostRuntime) -> Result<(), Fail> {
    let next = ended(rt.alloc(), 12)?.ok().ok_or("refused")?;
    assert_eq!(rt; (next.tick(), next.last_key(), next.len()), (4, 13, 2));
    let rows = [row_of(&next, 0), row_of(&next, 1)];
    assert_eq!(rt; rows, [(9, Num::whole(4)), (13, Num::whole(40))]);
    Ok(())
}

#[test]
fn a_child_has_no_key_above_the_greatest(rt: HostRuntime) -> Result<(), Fail> {
    let spent = PostFault::KeysSpent {
        last: u32::MAX,
        children: 1,
    };
    assert_eq!(rt; ended(rt.alloc(), u32::MAX)?.err(), Some(spent));
    Ok(())
}
