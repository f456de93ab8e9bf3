//! What a set keeps besides the rows of keys: made by one thread, or side by side.
ghost use Rattle.std.specs.Prelude.{◌≤◌, IfOk, OnOk, length};
ghost use Rattle.index_set.specs.Kept.{AreKept};
ghost use Rattle.index_set.specs.Prepared.{ArePreparedOf, IsPreparedOf, IsPreparedOn};
ghost use Rattle.index_set.specs.Shelves.{Grows, IsShelfOf};
ghost use Rattle.index_set.specs.Sets.{AreParts, Keeps, KeepsOf};
ghost use Rattle.index_set.specs.Sweeps.{AreKeysOf};

use crate::laying::{Readers, lay_groups};
use crate::near::plant_aggs;
use crate::prepared::{Prepared, PreparedUse, prepare_nodes};
use crate::ranged::{RangedAt, range_of};
use crate::ready::Ready;
use crate::round::{Round, round_aggs};
use crate::shelf::Shelf;
use crate::slabs::{Slabs, index_slabs};
use crate::source::Source;
use crate::sweeps::{Sweeps, sweep_nodes};
use battle_algebra::plans_are_shared;
use group_sweeps::Means;
use group_trees::GroupTrees;
use sgl_typed::scripts_are_shared;
use sgl_values::{List, Memory};
use std::thread::{self, Threads};

/// What a set keeps for aggregates and effects besides a shelf.
#[derive(Debug, Drop)]
pub(crate) struct Own {
    pub(crate) aggs: Vec<Option<RangedAt>>,
    pub(crate) trees: Vec<Option<GroupTrees>>,
    pub(crate) rounds: Vec<Option<Round>>,
    pub(crate) slabs: Slabs,
}

/// What a set keeps for counts, sums, the nearest, circles and effects.
#[derive(Debug, Drop)]
pub(crate) struct Rest {
    pub(crate) shelf: Shelf,
    pub(crate) own: Own,
}

/// What a set keeps besides the rows of keys.
#[derive(Debug, Drop)]
pub(crate) struct Parts {
    pub(crate) rest: Rest,
    pub(crate) sweeps: Sweeps,
}

// What is kept for each aggregate of a script.
fn index_aggs<R: Threads + Sync>(
    shelf: &mut Shelf,
    means: &Means<R>,
    of: &Source,
) -> Result<Vec<Option<RangedAt>>, Memory>
    requires { IsShelfOf shelf.old of.now }
    ensures kept { IfOk result (λ kept. AreKept shelf.new kept.items (length of.now.script.now.aggs) of.now.script.now of.now.world.now.world.rows) }
    ensures shelf { OnOk result (IsShelfOf shelf.new of.now) }
{
    let mut kept = Vec::new(means.alloc);
    for number in 0..of.script.aggs.len() {
        kept.push(range_of(shelf, means, of, number)?)?;
    }
    Ok(kept)
}

/// The parts of a set.
pub(crate) fn parts_of<R: Threads + Sync>(means: &Means<R>, of: &Source) -> Result<Parts, Memory>
    requires { AreKeysOf of.now }
    ensures { IfOk result (λ parts. AreParts parts of.now) }
{
    if means.threads < 2 {
        build_alone(means, of)
    } else {
        build_beside(means, of)
    }
}

// The parts that one thread makes, with one shelf for all.
fn build_alone<R: Threads + Sync>(means: &Means<R>, of: &Source) -> Result<Parts, Memory>
    requires { AreKeysOf of.now }
    ensures { IfOk result (λ parts. AreParts parts of.now) }
{
    let mut shelf = Shelf::new(means.alloc);
    let own = fill(&mut shelf, means, of)?;
    let ready = prepare_on(&mut shelf, means, of)?;
    let from = Ready {
        of,
        shelf: &shelf,
        uses: &ready,
    };
    let sweeps = sweep_nodes(means, &from)?;
    let rest = Rest { shelf, own };
    Ok(Parts { rest, sweeps })
}

// The same by several threads: half of them make all but the answers of extremes, which the others make ready meanwhile, and
// then all sweep. So that neither side waits for the other, each has a shelf of its own; that of the sweeps is given up behind
// them.
fn build_beside<R: Threads + Sync>(means: &Means<R>, of: &Source) -> Result<Parts, Memory>
    requires threads { 2 ≤ means.now.threads }
    requires keys { AreKeysOf of.now }
    ensures { IfOk result (λ parts. AreParts parts of.now) }
{
    let (rest, prepared) = rest_and_prepared(means, of);
    let rest = rest?;
    let prepared = prepared?;
    let from = Ready {
        of,
        shelf: &prepared.shelf,
        uses: &prepared.uses,
    };
    let sweeps = sweep_nodes(means, &from)?;
    Ok(Parts { rest, sweeps })
}

// All but the answers of extremes, and these made ready, side by side.
fn rest_and_prepared<R: Threads + Sync>(
    means: &Means<R>,
    of: &Source,
) -> (Result<Rest, Memory>, Result<Prepared, Memory>)
    requires threads { 2 ≤ means.now.threads }
    ensures rest { IfOk result.0 (λ rest. KeepsOf rest.shelf rest.own of.now) }
    ensures prepared { IfOk result.1 (λ prepared. IsPreparedOf prepared of.now) }
{
    scripts_are_shared();
    plans_are_shared();
    let Source {
        script,
        plan,
        world,
        keys,
        seed,
    } = *of;
    let Means { rt, threads, alloc } = *means;
    let some = (threads / 2).max(1);
    let most = threads - some;
    thread::join(
        rt,
        || -> Result<Rest, Memory>
            ensures { IfOk result (λ rest. Keeps rest.shelf rest.own script.entry.now world.entry.now.world plan.entry.now.nodes) }
        {
            let of = Source {
                script,
                plan,
                world,
                keys,
                seed,
            };
            let means = Means {
                rt,
                threads: some,
                alloc,
            };
            rest_of(&means, &of)
        },
        || -> Result<Prepared, Memory>
            ensures { IfOk result (λ prepared. IsPreparedOn prepared script.entry.now world.entry.now.world seed plan.entry.now.nodes) }
        {
            let of = Source {
                script,
                plan,
                world,
                keys,
                seed,
            };
            let means = Means {
                rt,
                threads: most,
                alloc,
            };
            prepared_of(&means, &of)
        },
    )
}

// All but the answers of extremes.
fn rest_of<R: Threads + Sync>(means: &Means<R>, of: &Source) -> Result<Rest, Memory>
    ensures { IfOk result (λ rest. KeepsOf rest.shelf rest.own of.now) }
{
    let mut shelf = Shelf::new(means.alloc);
    let own = fill(&mut shelf, means, of)?;
    Ok(Rest { shelf, own })
}

// The extremes of a plan, made ready over partitions that are made for them alone.
fn prepared_of<R: Threads + Sync>(means: &Means<R>, of: &Source) -> Result<Prepared, Memory>
    ensures { IfOk result (λ prepared. IsPreparedOf prepared of.now) }
{
    let mut shelf = Shelf::new(means.alloc);
    let uses = prepare_on(&mut shelf, means, of)?;
    Ok(Prepared { shelf, uses })
}

// Puts on a shelf what counts, sums and effects read: tells what is kept for each aggregate, and the rows of groups by rising
// value.
fn fill<R: Threads + Sync>(shelf: &mut Shelf, means: &Means<R>, of: &Source) -> Result<Own, Memory>
    requires { IsShelfOf shelf.old of.now }
    ensures keeps { IfOk result (λ own. KeepsOf shelf.new own of.now) }
    ensures shelf { OnOk result (IsShelfOf shelf.new of.now) }
{
    let aggs = index_aggs(shelf, means, of)?;
    lay_groups(shelf, means, of, Readers::Effects)?;
    let slabs = index_slabs(shelf, means, of)?;
    let trees = plant_aggs(means, of)?;
    let rounds = round_aggs(means, of)?;
    Ok(Own {
        aggs,
        trees,
        rounds,
        slabs,
    })
}

// The extremes of a plan, made ready over partitions that are put on a shelf where they are missing.
fn prepare_on<R: Threads + Sync>(
    shelf: &mut Shelf,
    means: &Means<R>,
    of: &Source,
) -> Result<List<PreparedUse>, Memory>
    requires { IsShelfOf shelf.old of.now }
    ensures ready { IfOk result (λ ready. ArePreparedOf ready shelf.new of.now) }
    ensures shelf { OnOk result (IsShelfOf shelf.new of.now) }
    ensures grows { OnOk result (Grows shelf.old shelf.new) }
{
    lay_groups(shelf, means, of, Readers::Sweeps)?;
    let ready = prepare_nodes(shelf, means, of)?;
    Ok(ready)
}
