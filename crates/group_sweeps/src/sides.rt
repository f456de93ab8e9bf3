//! The attributes by which rows are points of a sweep.
ghost use Rattle.std.specs.Prelude.{◌≡◌, ◌<◌, length};
ghost use Rattle.sgl_values.specs.World.{row_at};
ghost use Rattle.group_sweeps.specs.Extremes.{is_falling as goes_down, pair_of as pair_by, sides_of as sides_by, sweep_point, target_of};

use battle_algebra::{first_range, next_range};
use env_table::World;
use extreme_sweep::{Entry, Pair, SweepPoint};
use row_groups::{PointAttrs, along};
use sgl_evaluate::attribute_of;
use sgl_typed::{Attr, TAgg};
use sgl_values::FoldKind;
use test_boxes::other_of;

/// Whether the greatest value is looked for, the attribute whose value it is, the attributes of the range tests, and that of
/// the unequal test.
#[derive(Clone, Copy, Debug)]
pub(crate) struct Sides {
    pub(crate) falling: bool,
    pub(crate) attr: Attr,
    pub(crate) x: Option<Attr>,
    pub(crate) y: Option<Attr>,
    pub(crate) other: Option<Attr>,
}

/// Those of an aggregate.
pub(crate) fn sides_of(agg: &TAgg) -> Sides
    ensures { result ≡ sides_by agg.now }
{
    let tests = agg.tests.as_slice();
    let x = first_range(tests);
    let y = next_range(x, tests);
    let other = other_of(tests);
    let falling = is_falling(agg.kind);
    Sides {
        falling,
        attr: agg.attr,
        x,
        y,
        other,
    }
}

// Whether the greatest value is looked for.
fn is_falling(kind: FoldKind) -> bool
    ensures { result ≡ goes_down kind }
{
    match kind {
        FoldKind::Count => false,
        FoldKind::Sum => false,
        FoldKind::Min => false,
        FoldKind::Max => true,
        FoldKind::Lowest => false,
        FoldKind::Highest => true,
        FoldKind::Nearest => false,
    }
}

/// The attribute of the row that is found that is the answer.
pub(crate) fn target(kind: FoldKind, attr: Attr) -> Attr
    ensures { result ≡ target_of kind attr }
{
    match kind {
        FoldKind::Count => attr,
        FoldKind::Sum => attr,
        FoldKind::Min => attr,
        FoldKind::Max => attr,
        FoldKind::Lowest => Attr::Key,
        FoldKind::Highest => Attr::Key,
        FoldKind::Nearest => Attr::Key,
    }
}

impl PointAttrs for Sides {
    type Point = SweepPoint;

    ghost make = { sweep_point };

    fn point_at(&self, world: &World, row: u32) -> SweepPoint {
        SweepPoint {
            x: along(world, row, self.x).get(),
            y: along(world, row, self.y).get(),
            entry: Entry {
                pair: pair_of(world, self.falling, self.attr, row),
                group: along(world, row, self.other).get(),
            },
        }
    }
}

// The value and the key of a row. Where the greatest value is looked for, it is turned round.
fn pair_of(world: &World, falling: bool, attr: Attr, row: u32) -> Pair
    requires { row < length world.now.world.rows }
    ensures { result ≡ pair_by falling attr (row_at world.now.world row) }
{
    let value = attribute_of(world, row, attr);
    let key = world.key(row);
    if falling {
        Pair {
            value: value.negated(),
            key,
        }
    } else {
        Pair { value, key }
    }
}
