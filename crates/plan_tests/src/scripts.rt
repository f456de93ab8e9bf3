//! What texts of scripts are compiled and rewritten to, for the tests.

use battle_algebra::NormalPlan;
use battle_compile::{Compiled, compile};
use plan_rewrite::rewrite;
use std::alloc::Global;
use std::process::Abort;
use std::test::Fail;
use test_cases::battle;

/// What a text is compiled to.
pub fn compiled(rt: &impl Abort, alloc: Global, text: &str) -> Result<Compiled, Fail> {
    let bytes = text.as_bytes();
    assert!(rt; bytes.len() <= 1_048_576);
    Ok(compile(alloc, bytes)?)
}

/// Its plan in normal form.
#[tactic(auto, using(plan_translate::proofs::Written::plan_is_of))]
pub fn rewritten(alloc: Global, compiled: Compiled) -> Result<NormalPlan, Fail> {
    let Compiled { script, plan, .. } = compiled;
    Ok(rewrite(alloc, &script, plan)?)
}

/// The plan in normal form of the script of two armies with this `main`, which begins on the eighth line.
pub fn plan_of(rt: &impl Abort, alloc: Global, main: &str) -> Result<NormalPlan, Fail> {
    let text = battle(alloc, main)?;
    rewritten(alloc, compiled(rt, alloc, text.as_str())?)
}
