//! The script of the sample.
ghost use Rattle.std.specs.Prelude.{◌≡◌, ◌≤◌, length, IfOk};
ghost use Rattle.battle_maker.specs.Sample.{sample_script};

use sgl_values::{List, Memory, SCRIPT_BYTES_MAX};
use std::alloc::Global;

/// Two players whose units move about, flee from many and fight.
const SCRIPT: &[u8] = b"\
attr player const;
attr x const;
attr y const;
attr health const;
attr damage sum = 0;
attr dx sum = 0;
attr dy sum = 0;
attr fear max = 0;
aggregate Foes(u, r) = count e where e.player <> u.player and e.x >= u.x - r and e.x <= u.x + r and e.y >= u.y - r and e.y <= u.y + r;
aggregate Friends(u, r) = count e where e.player = u.player and e.x >= u.x - r and e.x <= u.x + r and e.y >= u.y - r and e.y <= u.y + r;
aggregate Weak(u) = lowest e.health where e.player <> u.player and e.x >= u.x - 20 and e.x <= u.x + 20 and e.y >= u.y - 20 and e.y <= u.y + 20 else 0;
action Hit(u, t, d) on e where e.key = t { damage <- d; }
action Move(u, a, b) on e where e.key = u.key { dx <- a; dy <- b; }
action Scare(u, r) on e where e.player <> u.player and e.x >= u.x - r and e.x <= u.x + r and e.y >= u.y - r and e.y <= u.y + r { fear <- 1; }
routine Fight(u) {
  perform Hit(u, Weak(u), 4);
  perform Scare(u, 4);
}
main(u) {
  let foes = Foes(u, 20);
  if foes = 0 {
    perform Move(u, random(1) % 3 - 1, random(2) % 3 - 1);
  } else {
    if foes > Friends(u, 20) + 2 { perform Move(u, 2, 2); } else { perform Fight(u); }
  }
}
post {
  x = x + dx;
  y = y + dy;
  health = health - damage - fear;
  remove when health <= 0;
}
";

/// The script.
pub fn script_text(alloc: Global) -> Result<List<u8>, Memory>
    ensures text { IfOk result (λ text. text ≡ sample_script) }
    ensures length { IfOk result (λ text. length text ≤ SCRIPT_BYTES_MAX) }
{
    Ok(List::from_vec(Vec::from_slice(alloc, SCRIPT)?))
}
