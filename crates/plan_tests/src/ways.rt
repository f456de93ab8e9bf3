//! Tests of ways, from the text of a script to the node that has one.

use crate::scripts::{compiled, rewritten};
use battle_algebra::{EffectWay, Node, NormalPlan, Way};
use std::alloc::Global;
use std::process::Abort;
use std::test::Fail;

const ATTRS: &str = "attr player const; attr x const; attr y const; attr health const;
attr damage sum = 0; attr heal sum = 0; attr fear max = 0;
";

fn plan_of(
    rt: &impl Abort,
    alloc: Global,
    definitions: &str,
    main: &str,
) -> Result<NormalPlan, Fail> {
    let text = format!(in alloc; "{ATTRS}{definitions}\n{main}")?;
    rewritten(alloc, compiled(rt, alloc, text.as_str())?)
}

// The way of the aggregate in a node.
fn way_at(normal: &NormalPlan, node: usize) -> Option<Way> {
    match normal.plan().nodes.get(node) {
        Some(Node::Agg { way, .. }) => Some(*way),
        _ => None,
    }
}

// The way of the effect in a node.
fn effect_way_at(normal: &NormalPlan, node: usize) -> Option<EffectWay> {
    match normal.plan().nodes.get(node) {
        Some(Node::Effect { way, .. }) => Some(*way),
        _ => None,
    }
}

// The way of the aggregate `Of`, called with 5.
fn way_of(rt: &impl Abort, alloc: Global, fold: &str) -> Result<Option<Way>, Fail> {
    let definitions = format!(in alloc;
        "aggregate Of(u, r) = {fold};
action Set(u, d) on e where e.key = u.key {{ damage <- d; }}"
    )?;
    let main = "main(u) { perform Set(u, Of(u, 5)); }";
    Ok(way_at(&plan_of(rt, alloc, definitions.as_str(), main)?, 0))
}

// The way of the effect with this clause.
fn effect_way_of(rt: &impl Abort, alloc: Global, clause: &str) -> Result<Option<EffectWay>, Fail> {
    let definitions = format!(in alloc; "action Set(u, r) {clause}")?;
    let main = "main(u) { perform Set(u, 5); }";
    let normal = plan_of(rt, alloc, definitions.as_str(), main)?;
    Ok(effect_way_at(&normal, 0))
}

// Folds, each behind the way of its aggregate.
const FOLDS: &str = "Key: sum e.health where e.key = r and e.x >= u.x
Key: nearest e (x, y) where e.key = r else 0
Circle: count e where within(x, y, r)
Circle: sum e.health where e.player <> u.player and within(x, y, r)
Range: count e
Range: sum e.health where e.player = 1 and e.x >= u.x - r and e.y < r
Sweep: lowest e.health where e.player <> u.player else 0
Sweep: max e.health where e.x >= u.x - r and e.x <= u.x + r else 0
Nearest: nearest e (x, y) where e.key <> u.key else 0
Scan: count e where e.player <> 1 and e.x <> 2
Scan: count e where e.x > 1 and e.y > 2 and e.health > 3
Scan: count e where e.x > 1 and within(x, y, r)
Scan: min e.health where within(x, y, r) else 0
Scan: nearest e (x, y) where e.x > 1 else 0";

// Clauses, each behind the way of its effect.
const CLAUSES: &str = "Key: on e where e.key = r { damage <- 1; }
Key: on e where e.key = u.key { fear <- e.x; }
Area: on e where e.x >= u.x - r and e.x <= u.x + r { heal <- r; }
Area: on e where e.x < r and e.y >= u.y { heal <- r; damage <- 2; }
Slab: on e where e.player = u.player { heal <- r; }
Slab: on e where e.player <> 1 and e.x < r { heal <- r; }
Slab: on e where e.x < r { fear <- 1; }
Slab: on e where e.x < r { heal <- e.health; }
Slab: on e where e.x > 1 and e.y > 2 and e.health > 3 { heal <- r; }
Scan: on e { heal <- r; }
Scan: on e where e.player <> u.player { heal <- r; }
Scan: on e where within(x, y, r) { heal <- r; }";

// The word of the way of the aggregate with this fold, or of the effect with this clause.
fn way_word(rt: &impl Abort, alloc: Global, text: &str) -> Result<String, Fail> {
    if text.starts_with("on ") {
        let way = effect_way_of(rt, alloc, text)?.ok_or("no effect")?;
        Ok(format!(in alloc; "{way:?}")?)
    } else {
        let way = way_of(rt, alloc, text)?.ok_or("no aggregate")?;
        Ok(format!(in alloc; "{way:?}")?)
    }
}

// Compares the way of each row, before its colon, with that of what stands after it.
fn assert_ways(rt: &impl Abort, alloc: Global, rows: &str) -> Result<(), Fail> {
    for row in rows.lines() {
        let (way, text) = row.split_once(": ").ok_or("no way")?;
        let found = way_word(rt, alloc, text)?;
        assert_eq!(rt; found.as_str(), way, "of {text}");
    }
    Ok(())
}

#[test]
fn aggregates_have_their_ways(rt: HostRuntime) -> Result<(), Fail> {
    assert_ways(&rt, rt.alloc(), FOLDS)
}

#[test]
fn an_extreme_with_an_argument_that_is_not_fixed_is_scanned_for(
    rt: HostRuntime,
) -> Result<(), Fail> {
    let alloc = rt.alloc();
    let definitions = "aggregate Of(u, r) = lowest e.health where e.x >= u.x - r else 0;
aggregate All(u) = count e;
action Set(u, d) on e where e.key = u.key { damage <- d; }";
    let main = "main(u) { perform Set(u, Of(u, All(u))); }";
    let normal = plan_of(&rt, alloc, definitions, main)?;
    assert_eq!(rt; normal.plan().nodes.len(), 3);
    assert_eq!(rt; way_at(&normal, 1), Some(Way::Scan));
    Ok(())
}

#[test]
fn effects_have_their_ways(rt: HostRuntime) -> Result<(), Fail> {
    assert_ways(&rt, rt.alloc(), CLAUSES)
}
