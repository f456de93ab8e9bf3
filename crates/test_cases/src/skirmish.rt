//! The example of the language: two armies in which each unit hits the weakest of the other.

use sgl_values::Memory;
use std::alloc::Global;

const HEAD: &str = "attr player const;
attr x const;
attr health const;
attr damage sum = 0;
aggregate Near(u, r) = count e where e.player <> u.player and e.x >= u.x - r and e.x <= u.x + r;
aggregate Weakest(u) = lowest e.health where e.player <> u.player else 0;
action Hit(u, t, d) on e where e.key = t { damage <- d; }
";

const POST: &str = "
post { health = health - damage; remove when health <= 0; }
";

/// The `main` of the example.
pub const SKIRMISH_MAIN: &str = "main(u) {
  if Near(u, 5) > 0 { perform Hit(u, Weakest(u), 3); }
}";

/// The example with this `main`, which begins on the eighth line.
pub fn battle(alloc: Global, main: &str) -> Result<String, Memory> {
    Ok(format!(in alloc; "{HEAD}{main}{POST}")?)
}
