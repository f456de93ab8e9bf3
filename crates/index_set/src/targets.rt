//! The rows that the clause of an effect goes to.
ghost use Rattle.std.specs.Prelude.{◌≡◌, ◌<◌, ◌≤◌, ℕ, All, List, Some, length, take};
ghost use Rattle.std.specs.List.{range_with_len};
ghost use Rattle.std.specs.Option.{ForSome};
ghost use Rattle.key_table.specs.Keys.{keys_of};
ghost use Rattle.sgl_typed.specs.Value.{Context};
ghost use Rattle.sgl_typed.specs.declared.script.TTest.{TTest as TTestOf};
ghost use Rattle.test_boxes.specs.Forms.{IsAsking};
ghost use Rattle.sgl_evaluate.specs.Frame.{context_of, IsFrame};
ghost use Rattle.sgl_evaluate.specs.Rights.{AreRights, right_of};
ghost use Rattle.index_set.specs.Frames.{clause_context_of};
ghost use Rattle.index_set.specs.Keyed.{key_asked as asked_by};
ghost use Rattle.index_set.specs.Slabs.{IsSlab};
ghost use Rattle.index_set.specs.Targets.{AreTargets, GivesNothing, IsWalkOf};
ghost use Rattle.index_set.specs.Walks.{walk_rest, AsksEnough};

use crate::keyed::{key_asked, row_with};
use crate::row_iter::RowIter;
use crate::slab::Slab;
use crate::slab_walk::slab_walk;
use crate::walk::Walk;
use battle_algebra::EffectWay;
use env_table::World;
use key_table::KeyTable;
use sgl_evaluate::{Frame, Rights, TickContext};
use sgl_typed::TTest;
use sgl_values::{Fault, Num, PARAMS_MAX, Val};
use test_boxes::Asking;

/// What an effect goes to: nothing but the first fault of the right sides of its tests, or the rows that pass.
#[derive(Drop)]
pub enum Targets<'a> {
    Faulty(Fault),
    Rows(RowIter<'a>),
}

// All rows.
fn all_rows<'a>(world: &World) -> Walk<'a>
    ensures within { All (λ row. row < length world.now.world.rows) (walk_rest result) }
    ensures rest { walk_rest result ≡ range_with_len 0 (length world.now.world.rows) }
    ensures enough { (c : Context) (tests : List TTestOf) → AsksEnough c tests result }
{
    Walk::Rows {
        next: 0,
        end: world.len(),
    }
}

fn scan_walk<'a>(frame: &Frame, tests: &[TTest]) -> Walk<'a>
    requires { IsFrame frame.now }
    ensures { IsWalkOf (context_of frame.now) tests.now result }
{
    let _ = tests;
    all_rows(frame.tick.world)
}

fn key_walk<'a>(frame: &Frame, tests: &[TTest], rights: &Rights, keys: &KeyTable) -> Walk<'a>
    requires frame { IsFrame frame.now }
    requires rights { AreRights (context_of frame.now) tests.now rights.now }
    requires keys { keys.now ≡ keys_of frame.now.tick.world.now.world }
    ensures { IsWalkOf (context_of frame.now) tests.now result }
{
    match key_asked(frame, tests, rights) {
        None => scan_walk(frame, tests),
        Some(key) => keyed_walk(frame, tests, keys, key),
    }
}

fn keyed_walk<'a>(frame: &Frame, tests: &[TTest], keys: &KeyTable, key: Num) -> Walk<'a>
    requires frame { IsFrame frame.now }
    requires keys { keys.now ≡ keys_of frame.now.tick.world.now.world }
    requires key { asked_by (right_of (context_of frame.now)) tests.now ≡ Some key }
    ensures { IsWalkOf (context_of frame.now) tests.now result }
{
    let _ = tests;
    let _ = frame.tick.world.len();
    match row_with(frame.tick.world, keys, key) {
        None => Walk::Rows { next: 0, end: 0 },
        Some(row) => Walk::Rows {
            next: row,
            end: row + 1,
        },
    }
}

/// The rows that pass the tests of a clause, for which there may be sorted groups, among others that are asked.
pub(crate) fn walk_of<'a>(
    asking: &Asking,
    tests: &[TTest],
    way: EffectWay,
    slab: Option<Slab<'a>>,
    keys: &KeyTable,
) -> Walk<'a>
    requires asking { IsAsking asking.now tests.now }
    requires keys { keys.now ≡ keys_of asking.now.frame.now.tick.world.now.world }
    requires slab { ForSome slab (λ slab. IsSlab slab tests.now asking.now.frame.now.tick.world.now.world) }
    ensures { IsWalkOf (context_of asking.now.frame.now) tests.now result }
{
    match way {
        EffectWay::Key => key_walk(asking.frame, tests, asking.rights, keys),
        EffectWay::Scan => scan_walk(asking.frame, tests),
        EffectWay::Slab | EffectWay::Area => match slab {
            None => scan_walk(asking.frame, tests),
            Some(slab) => slab_walk(asking, tests, slab),
        },
    }
}

// The same without forms of the tests.
fn plain_walk<'a, 'b>(
    frame: &'b Frame<'b>,
    tests: &[TTest],
    rights: &'b Rights,
    way: EffectWay,
    slab: Option<Slab<'a>>,
    keys: &KeyTable,
) -> Walk<'a>
    requires frame { IsFrame frame.now }
    requires rights { AreRights (context_of frame.now) tests.now rights.now }
    requires keys { keys.now ≡ keys_of frame.now.tick.world.now.world }
    requires slab { ForSome slab (λ slab. IsSlab slab tests.now frame.now.tick.world.now.world) }
    ensures { IsWalkOf (context_of frame.now) tests.now result }
{
    let asking = Asking {
        frame,
        rights,
        forms: None,
    };
    walk_of(&asking, tests, way, slab, keys)
}

/// The clause of an acting unit.
#[derive(Clone, Copy)]
pub(crate) struct Actor<'a> {
    pub tick: TickContext<'a>,
    pub unit: u32,
    // The values of the arguments, of which so many are there.
    pub args: [Val; PARAMS_MAX],
    pub count: usize,
}

/// The rows that pass the tests of a clause, for which there may be sorted groups.
pub(crate) fn aimed<'a>(
    actor: Actor<'a>,
    tests: &'a [TTest],
    way: EffectWay,
    slab: Option<Slab<'a>>,
    keys: &KeyTable,
) -> Targets<'a>
    requires unit { actor.unit < length actor.tick.world.now.world.rows }
    requires few { actor.count ≤ PARAMS_MAX }
    requires keys { keys.now ≡ keys_of actor.tick.world.now.world }
    requires slab { ForSome slab (λ slab. IsSlab slab tests.now actor.tick.world.now.world) }
    ensures { AreTargets result (clause_context_of actor.entry.tick.script.now actor.entry.tick.world.now.world actor.entry.tick.seed actor.entry.unit actor.entry.args actor.entry.count) tests.entry.now }
{
    let Actor {
        tick,
        unit,
        args,
        count,
    } = actor;
    let frame = Frame {
        tick,
        unit,
        slots: &args[..count],
        target: unit,
        combined: &[],
    };
    match Rights::read(&frame, tests) {
        Err(fault) => Targets::Faulty(fault),
        Ok(rights) => {
            let walk = plain_walk(&frame, tests, &rights, way, slab, keys);
            Targets::Rows(RowIter {
                tick,
                unit,
                args,
                count,
                tests,
                rights,
                walk,
            })
        }
    }
}

/// No row.
pub(crate) fn nowhere<'a>(actor: Actor<'a>) -> Targets<'a>
    requires { actor.unit < length actor.tick.world.now.world.rows }
    ensures { GivesNothing result }
{
    let frame = Frame {
        tick: actor.tick,
        unit: actor.unit,
        slots: &[],
        target: actor.unit,
        combined: &[],
    };
    match Rights::read(&frame, &[]) {
        Err(fault) => Targets::Faulty(fault),
        Ok(rights) => Targets::Rows(RowIter {
            tick: actor.tick,
            unit: actor.unit,
            args: actor.args,
            count: 0,
            tests: &[],
            rights,
            walk: Walk::Rows { next: 0, end: 0 },
        }),
    }
}
