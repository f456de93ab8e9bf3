//! Tests of the plan that a script has, and of what it is rewritten to.

use crate::scripts::{compiled, plan_of, rewritten};
use crate::shown::shown_plan;
use battle_algebra::Plan;
use std::alloc::Global;
use std::process::Abort;
use std::test::Fail;
use test_cases::{SKIRMISH_MAIN, battle};

const TWICE: &str = "main(u) {
  let a = Near(u, 5);
  let b = Near(u, 5);
  if u.x > 3 { if a + b > 0 { perform Hit(u, 1, 1); } }
}";

// The plan has so many slots and these nodes.
fn assert_shown(
    rt: &impl Abort,
    alloc: Global,
    plan: &Plan,
    slots: u32,
    wanted: &str,
) -> Result<(), Fail> {
    assert_eq!(rt; plan.slots, slots);
    assert_eq!(rt; shown_plan(alloc, plan)?.as_str(), wanted);
    Ok(())
}

// The plan of `SKIRMISH_MAIN`, with the ways of its two calls and of its effect.
fn skirmish_plan(alloc: Global, near: &str, weakest: &str, hit: &str) -> Result<String, Fail> {
    Ok(format!(in alloc;
        "agg s0 0( 5 ) at 9:6 {near} then 1
split (s0 Cmp(Gt)@9:17 0) at 9:17 yes 2 no 4
agg s1 1( ) at 9:38 {weakest} then 3
effect 0.0( s1 3 ) at 9:23 {hit}
empty
"
    )?)
}

#[test]
fn a_script_has_its_plan(rt: HostRuntime) -> Result<(), Fail> {
    let alloc = rt.alloc();
    let text = battle(alloc, SKIRMISH_MAIN)?;
    let plan = compiled(&rt, alloc, text.as_str())?.plan;
    let wanted = skirmish_plan(alloc, "Scan", "Scan", "Scan")?;
    assert_shown(&rt, alloc, &plan, 2, wanted.as_str())
}

#[test]
fn a_plan_is_rewritten(rt: HostRuntime) -> Result<(), Fail> {
    let alloc = rt.alloc();
    let normal = plan_of(&rt, alloc, SKIRMISH_MAIN)?;
    let wanted = skirmish_plan(alloc, "Range", "Sweep", "Key")?;
    assert_shown(&rt, alloc, normal.plan(), 2, wanted.as_str())
}

#[test]
fn equal_calls_are_one_below_the_split_that_needs_none(rt: HostRuntime) -> Result<(), Fail> {
    let alloc = rt.alloc();
    let text = battle(alloc, TWICE)?;
    let whole = compiled(&rt, alloc, text.as_str())?;
    assert_shown(
        &rt,
        alloc,
        &whole.plan,
        4,
        "agg s2 0( 5 ) at 9:11 Scan then 1
extend s0 s2 at 9:11 then 2
agg s3 0( 5 ) at 10:11 Scan then 3
extend s1 s3 at 10:11 then 4
split (u.1 Cmp(Gt)@11:10 3) at 11:10 yes 5 no 8
split ((s0 Add@11:21 s1) Cmp(Gt)@11:25 0) at 11:25 yes 6 no 7
effect 0.0( 1 1 ) at 11:31 Scan
empty
empty
",
    )?;
    let normal = rewritten(alloc, whole)?;
    assert_shown(
        &rt,
        alloc,
        normal.plan(),
        4,
        "split (u.1 Cmp(Gt)@11:10 3) at 11:10 yes 1 no 7
agg s2 0( 5 ) at 9:11 Range then 2
extend s0 s2 at 9:11 then 3
extend s1 s2 at 10:11 then 4
split ((s0 Add@11:21 s1) Cmp(Gt)@11:25 0) at 11:25 yes 5 no 6
effect 0.0( 1 1 ) at 11:31 Key
empty
empty
",
    )
}

const ONE_EFFECT: &str = "effect 0.0( 1 1 ) at 9:1 Key\n";

// Each of these has this plan in normal form.
fn assert_plan(rt: &impl Abort, alloc: Global, mains: &[&str], wanted: &str) -> Result<(), Fail> {
    for main in mains {
        let normal = plan_of(rt, alloc, main)?;
        assert_eq!(rt;
            shown_plan(alloc, normal.plan())?.as_str(),
            wanted,
            "of {main}"
        );
    }
    Ok(())
}

// Mains that do the same as `perform Hit(u, 1, 1);`: with splits of literals, with empty sides, and with lets that
// nothing reads.
const ONE_EFFECT_MAINS: [&str; 9] = [
    "main(u) { if true {\nperform Hit(u, 1, 1); } else { perform Hit(u, 2, 2); } }",
    "main(u) { if false { perform Hit(u, 2, 2); } else {\nperform Hit(u, 1, 1); } }",
    "main(u) { if true { if false { } else {\nperform Hit(u, 1, 1); } } }",
    "main(u) { if true { }\nperform Hit(u, 1, 1); }",
    "main(u) {\nperform Hit(u, 1, 1); if false { perform Hit(u, 2, 2); } }",
    "main(u) { if true { } if true { }\nperform Hit(u, 1, 1); if false { } }",
    "main(u) { let a = u.x * u.x;\nperform Hit(u, 1, 1); }",
    "main(u) { let a = Near(u, 5); let b = a + Weakest(u);\nperform Hit(u, 1, 1); }",
    "main(u) {\nperform Hit(u, 1, 1); let a = Weakest(u); }",
];

// Mains that do nothing.
const EMPTY_MAINS: [&str; 2] = [
    "main(u) { }",
    "main(u) { if true { } if false { perform Hit(u, 2, 2); } }",
];

#[test]
fn what_has_no_effect_is_taken_out(rt: HostRuntime) -> Result<(), Fail> {
    assert_plan(&rt, rt.alloc(), ONE_EFFECT_MAINS.as_slice(), ONE_EFFECT)?;
    assert_plan(&rt, rt.alloc(), EMPTY_MAINS.as_slice(), "empty\n")
}

#[test]
fn calls_with_other_arguments_stay(rt: HostRuntime) -> Result<(), Fail> {
    let main = "main(u) { let a = Near(u, 5); let b = Near(u, 6);\nperform Hit(u, a, b); }";
    assert_plan(
        &rt,
        rt.alloc(),
        &[main],
        "agg s2 0( 5 ) at 8:19 Range then 1
extend s0 s2 at 8:19 then 2
agg s3 0( 6 ) at 8:39 Range then 3
extend s1 s3 at 8:39 then 4
effect 0.0( s0 s1 ) at 9:1 Key
",
    )
}
