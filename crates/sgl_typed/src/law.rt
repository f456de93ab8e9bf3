//! Laws of the definitions, for proofs above.

ghost use denote.Param.Send.{IsSync};
ghost use Rattle.sgl_typed.specs.contracts.script.TScript.{the_row};
ghost use Rattle.sgl_typed.specs.contracts.script.TExpr as exprs;
ghost use Rattle.sgl_typed.specs.contracts.script.TStmt as statements;
ghost use Rattle.sgl_typed.specs.contracts.script.TTest as tests;
ghost use Rattle.sgl_typed.specs.contracts.script.TWrite as writes;
ghost use Rattle.sgl_typed.specs.contracts.script.TOn as clauses;
ghost use Rattle.sgl_typed.specs.contracts.script.TAction as actions;
ghost use Rattle.sgl_typed.specs.contracts.script.TAgg as aggs;
ghost use Rattle.sgl_typed.specs.contracts.script.TRoutine as routines;
ghost use Rattle.sgl_typed.specs.contracts.script.TRule as rules;
ghost use Rattle.sgl_typed.specs.contracts.script.TSpawn as spawns;
ghost use Rattle.sgl_typed.specs.Laws.{ItemsOfJoinedUnits, ItemsOfTasks, NextWorldFollows, RunsAreTicks, ScriptsUseOwnSlots, ValuesReadSlots};

use crate::script::{
    TAction, TAgg, TExpr, TOn, TRoutine, TRule, TScript, TSpawn, TStmt, TTest, TWrite,
};

/// A law, and no work: the items of units that are joined are those of the one and then of the other, and so are the
/// items of tasks.
pub fn items_join()
    ensures units { ItemsOfJoinedUnits }
    ensures tasks { ItemsOfTasks }
{}

/// A law, and no work: the next world of a tick has the next number, units of the old one and then children with the keys
/// behind the last key, and a last key that does not fall. Where no key of the old one is above its last key, none of the
/// next one is, and where its keys rise as well, so do those of the next one. It keeps a width that all rows have.
pub fn next_worlds_follow()
    ensures { NextWorldFollows }
{}

/// A law, and no work: the statements of a script use only slots below its number of slots, and a value depends only on
/// the slots that its expression reads.
pub fn slots_are_own()
    ensures own { ScriptsUseOwnSlots }
    ensures read { ValuesReadSlots }
{}

/// A law, and no work: the first world of a run is the one that it starts with; each world that is not behind the last tick
/// is followed by the next world of its tick, or the run ends with that world and the tick's refusal.
pub fn runs_are_ticks()
    ensures { RunsAreTicks }
{}

fn shared<T: Sync>()
    ensures { IsSync T.row }
{}

/// A law, and no work: threads may share an expression.
pub fn exprs_are_shared()
    ensures { IsSync exprs.the_row }
{
    shared::<TExpr>()
}

fn statements_are_shared()
    ensures { IsSync statements.the_row }
{
    exprs_are_shared();
    shared::<TStmt>()
}

/// A law, and no work: threads may share a test.
pub fn tests_are_shared()
    ensures { IsSync tests.the_row }
{
    exprs_are_shared();
    shared::<TTest>()
}

fn writes_are_shared()
    ensures { IsSync writes.the_row }
{
    shared::<TWrite>()
}

fn clauses_are_shared()
    ensures { IsSync clauses.the_row }
{
    tests_are_shared();
    writes_are_shared();
    shared::<TOn>()
}

fn actions_are_shared()
    ensures { IsSync actions.the_row }
{
    clauses_are_shared();
    shared::<TAction>()
}

fn aggs_are_shared()
    ensures { IsSync aggs.the_row }
{
    tests_are_shared();
    shared::<TAgg>()
}

fn routines_are_shared()
    ensures { IsSync routines.the_row }
{
    shared::<TRoutine>()
}

fn rules_are_shared()
    ensures { IsSync rules.the_row }
{
    shared::<TRule>()
}

fn spawns_are_shared()
    ensures { IsSync spawns.the_row }
{
    rules_are_shared();
    shared::<TSpawn>()
}

/// A law, and no work: threads may share a script. A function that lends one to threads calls it first.
pub fn scripts_are_shared()
    ensures { IsSync the_row }
{
    exprs_are_shared();
    statements_are_shared();
    aggs_are_shared();
    actions_are_shared();
    routines_are_shared();
    rules_are_shared();
    spawns_are_shared();
    shared::<TScript>()
}
