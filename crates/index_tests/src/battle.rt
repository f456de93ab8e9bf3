//! A script with aggregates and actions of every way, and its plan.
ghost use Rattle.std.specs.Prelude.{IfOk};
ghost use Rattle.battle_algebra.specs.OfScript.{IsOf};
ghost use Rattle.battle_algebra.specs.Plans.{tree_in};

use battle_algebra::NormalPlan;
use battle_compile::{Compiled, compile};
use plan_rewrite::rewrite;
use sgl_typed::TScript;
use std::alloc::Global;
use std::process::Abort;
use std::test::Fail;

/// So many const attributes has the script.
pub const WIDTH: u32 = 6;

const TEXT: &str = "attr player const; attr team const; attr kind const;
attr x const; attr y const; attr health const;
attr hit sum = 0; attr worry max = 0;
aggregate Foes(u, r) = count e where e.player <> u.player and e.x >= u.x - r and e.x <= u.x + r
  and e.y >= u.y - r and e.y <= u.y + r;
aggregate Friends(u, r) = count e where e.player = u.player and e.x > u.x - r and e.x < u.x + r;
aggregate Wealth(u, r) = sum e.health where e.player <> u.player and e.x >= u.x - r and e.x < u.x + r;
aggregate Total(u) = sum e.x;
aggregate Kin(u, a, b) = count e where e.player = u.player and e.team = u.team and e.kind = u.kind
  and e.key <> u.key and e.x >= a and e.y <= b;
aggregate Held(u, t) = sum e.health where e.key = t and e.x >= u.y;
aggregate Who(u, t) = lowest e.health where e.key = t else -7;
aggregate Weak(u) = lowest e.health where e.player <> u.player and e.x >= u.x - 3 and e.x <= u.x + 3
  and e.y >= u.y - 3 and e.y <= u.y + 3 else 0;
aggregate Strong(u) = highest e.health where e.team = u.team and e.x >= u.x - 2 else -1;
aggregate Least(u, c) = min e.x where e.kind = u.kind and e.y <= u.y + c else 9;
aggregate Most(u) = max e.y where e.player <> u.player and e.y < u.y * 3 else 9;
aggregate Odd(u, r) = max e.health where e.x >= u.x - r and e.health <= 4 and e.y >= r else 1;
aggregate Near(u) = nearest e (x, y) where e.player <> u.player else 0;
aggregate Mate(u, k) = nearest e (y, health) where e.player = u.player and e.kind = k and e.key <> u.key
  else -3;
aggregate Apart(u, d) = nearest e (x, x) where e.team = u.team / d else 8;
aggregate Closest(u) = nearest e (health, key) else 5;
aggregate Round(u, r) = count e where within(x, y, r);
aggregate Ring(u, r) = sum e.health where e.team = u.team and within(y, x, r + 1) and e.kind <> u.kind;
aggregate Parted(u, d) = count e where e.x >= u.x / d and e.y >= u.y % d;
action Touch(u, t) on e where e.key = t { hit <- e.health; }
action Scare(u, r) on e where e.player <> u.player and e.x >= u.x - r and e.x <= u.x + r
  and e.y >= u.y - r and e.y <= u.y + r { worry <- e.x; }
action Shun(u, t) on e where e.team <> t and e.x >= u.x - 2 and e.y < u.y { worry <- e.y; }
action Part(u, r) on e where e.x > u.x - r and e.x <= u.x and e.health <> u.health { hit <- e.x; }
action Dodge(u, r) on e where e.key <> r and e.y >= u.y - r { hit <- e.team; }
action Heal(u, r) on e where e.player = u.player and e.team = u.team and e.x > u.x - r { hit <- e.key; }
action Shout(u, r) on e where e.player <> u.player { hit <- r; }
action Burn(u, r) on e where e.x >= u.x - r and e.x <= u.x + r and e.y >= u.y - r and e.y <= u.y + r
  { hit <- 1; }
action Crack(u, d) on e where e.x >= u.x / d and e.y < u.y % d and e.kind = u.kind { hit <- e.y; }
main(u) {
  let r = random(1) % 5 - 1;
  let a = Foes(u, r) + Friends(u, r) + Wealth(u, r) + Total(u) + Kin(u, r, 3) + Held(u, r + 2);
  let b = Who(u, r) + Weak(u) + Strong(u) + Least(u, 1) + Least(u, r) + Most(u) + Odd(u, r);
  let c = Near(u) + Mate(u, r) + Apart(u, r) + Closest(u) + Round(u, r) + Ring(u, r)
    + Parted(u, r);
  perform Touch(u, r);
  perform Scare(u, r);
  perform Shun(u, r);
  perform Part(u, r + 3);
  perform Dodge(u, r);
  perform Heal(u, r);
  perform Shout(u, a);
  perform Shout(u, b);
  perform Shout(u, c);
  perform Burn(u, r);
  perform Crack(u, r);
}
";

/// The script and its plan in normal form.
#[tactic(auto, using(plan_translate::proofs::Written::plan_is_of))]
pub fn compiled(rt: &impl Abort, alloc: Global) -> Result<(TScript, NormalPlan), Fail>
    ensures { IfOk result (λ made. IsOf made.0 (tree_in made.1.plan.nodes)) }
{
    let bytes = TEXT.as_bytes();
    assert!(rt; bytes.len() <= 1_048_576);
    let Compiled { script, plan, .. } = compile(alloc, bytes)?;
    let plan = rewrite(alloc, &script, plan)?;
    assert_eq!(rt; script.schema.consts.len(), WIDTH as usize);
    Ok((script, plan))
}
