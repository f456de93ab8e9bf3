//! Sweeps up to where groups are swept: what rows ask for, and the points of groups laid out.
ghost use Rattle.std.specs.Prelude.{◌≡◌, ◌≤◌, ℕ, true, List, length, map, IfOk};
ghost use Rattle.sgl_typed.specs.declared.script.TExpr.{TExpr as TExprOf};
ghost use Rattle.sgl_typed.specs.declared.script.TScript.{TScript as TScriptOf};
ghost use Rattle.battle_algebra.specs.Ways as ways;
ghost use Rattle.key_table.specs.Keys.{keys_of};
ghost use Rattle.row_groups.specs.Groups.{IsGroups};
ghost use Rattle.test_boxes.specs.Readings.{grouping};
ghost use Rattle.test_boxes.specs.declared.reading.Reading.TheVariants.{Away};
ghost use Rattle.group_sweeps.specs.Asks.{AreAsks};
ghost use Rattle.group_sweeps.specs.Extremes.{is_extreme};
ghost use Rattle.group_sweeps.specs.Finds.{point_by};
ghost use Rattle.group_sweeps.specs.Laying.{AreGroupsLaid};
ghost use Rattle.group_sweeps.specs.Prepared.{IsPrepared, IsReady};
ghost use Rattle.group_sweeps.specs.Swept.{AreAnswers};

use crate::ask::{Ask, Asker, ROWS_A_THREAD, ask_rows};
use crate::fault_list::put_faults;
use crate::laying::lay_groups;
use crate::sides::{Sides, sides_of};
use crate::swept::{Swept, sweep_asks};
use env_table::World;
use extreme_sweep::LaidPoints;
use key_table::KeyTable;
use row_groups::{Groups, Means};
use sgl_evaluate::TickContext;
use sgl_typed::{TAgg, TExpr, TScript, exprs_are_shared, scripts_are_shared, tests_are_shared};
use sgl_values::{Memory, PARAMS_MAX, ROWS_MAX};
use std::thread::{self, Threads};
use thread_share::threads_for;

/// What rows ask for by a use of an extreme, and the points of its groups laid out: all of a sweep that comes before the
/// groups are swept.
#[derive(Debug, Drop)]
pub struct PreparedSweep {
    pub(crate) asks: Vec<Ask>,
    pub(crate) laid: Vec<LaidPoints>,
}

/// A use of an extreme made ready to be swept with each row as the acting one. The arguments read no slot, and rows are in
/// groups by the attributes of the equal tests. `Memory` is its only refusal.
pub fn prepare_sweep<R: Threads + Sync>(
    means: &Means<R>,
    script: &TScript,
    world: &World,
    seed: u64,
    agg: &TAgg,
    args: &[TExpr],
    groups: &Groups,
) -> Result<PreparedSweep, Memory>
    requires args { length args.now ≤ PARAMS_MAX }
    requires groups { IsGroups groups.now (map ways.attr_of (grouping Away agg.now.tests)) world.now.world.rows }
    ensures { IfOk result (λ prepared. IsPrepared prepared agg.now script.now world.now.world seed args.now groups.now) }
{
    let _ = world.len();
    let sides = sides_of(agg);
    let of = Asker {
        tick: TickContext {
            script,
            world,
            seed,
        },
        tests: agg.tests.as_slice(),
        args,
        groups,
    };
    let (asks, laid) = asked_and_laid(means, &of, sides);
    let asks = asks?;
    let laid = laid?;
    Ok(PreparedSweep { asks, laid })
}

impl PreparedSweep {
    /// The answers of the use, over the same world and groups. Each group is swept for the windows that rows ask for in it,
    /// and `keys` tells the rows of keys. `Memory` is its only refusal.
    pub fn answers<R: Threads + Sync>(
        &self,
        means: &Means<R>,
        world: &World,
        keys: &KeyTable,
        agg: &TAgg,
        groups: &Groups,
    ) -> Result<Swept, Memory>
        requires keys { keys.now ≡ keys_of world.now.world }
        requires extreme { is_extreme agg.now.kind ≡ true }
        requires few { ways.few_groups agg.now.tests ≡ true }
        requires boxed { ways.is_boxed agg.now.tests ≡ true }
        requires groups { IsGroups groups.now (map ways.attr_of (grouping Away agg.now.tests)) world.now.world.rows }
        requires ready { IsReady self.now agg.now world.now.world groups.now }
        ensures { (script : TScriptOf) (seed : ℕ) (args : List TExprOf) → IsPrepared self.now agg.now script world.now.world seed args groups.now → IfOk result (λ swept. AreAnswers swept agg.now script world.now.world seed args) }
    {
        let _ = world.len();
        let sides = sides_of(agg);
        let asks = self.asks.as_slice();
        let laid = self.laid.as_slice();
        let mut found = sweep_asks(means, world, keys, sides, groups, laid, asks)?;
        let faults = put_faults(means, asks, found.as_mut_slice())?;
        Ok(Swept { found, faults })
    }
}

// What rows ask for, and the points of groups laid out, side by side where there are threads and rows enough: where points
// stand does not depend on what is asked for. One thread alone lays out each group when it is swept.
fn asked_and_laid<R: Threads + Sync>(
    means: &Means<R>,
    of: &Asker,
    sides: Sides,
) -> (Result<Vec<Ask>, Memory>, Result<Vec<LaidPoints>, Memory>)
    requires args { length of.now.args.now ≤ PARAMS_MAX }
    requires groups { IsGroups of.now.groups.now of.now.groups.now.attrs of.now.tick.world.now.world.rows }
    ensures few { IfOk result.0 (λ asks. length asks.items ≤ ROWS_MAX) }
    ensures asks { IfOk result.0 (λ asks. AreAsks of.now.tick.script.now of.now.tick.world.now.world of.now.tick.seed of.now.tests.now of.now.args.now of.now.groups.now (length of.now.tick.world.now.world.rows) asks.items) }
    ensures laid { IfOk result.1 (λ laid. AreGroupsLaid (point_by sides of.now.tick.world.now.world) of.now.groups.now.lists laid.items) }
{
    let Means { rt, threads, alloc } = *means;
    let threads = threads_for(threads, of.tick.world.len() as usize, ROWS_A_THREAD);
    if threads < 2 {
        return (ask_rows(means, of), Ok(Vec::new(alloc)));
    }
    scripts_are_shared();
    exprs_are_shared();
    tests_are_shared();
    let TickContext {
        script,
        world,
        seed,
    } = of.tick;
    let Asker {
        tests,
        args,
        groups,
        ..
    } = *of;
    let some = (threads / 3).max(1);
    let most = threads - some;
    thread::join(
        rt,
        || -> Result<Vec<Ask>, Memory>
            requires { length args.now ≤ PARAMS_MAX }
            ensures few { IfOk result (λ asks. length asks.items ≤ ROWS_MAX) }
            ensures asks { IfOk result (λ asks. AreAsks script.entry.now world.entry.now.world seed tests.entry.now args.entry.now groups.entry.now (length world.entry.now.world.rows) asks.items) }
        {
            let means = Means {
                rt,
                threads: most,
                alloc,
            };
            let of = Asker {
                tick: TickContext {
                    script,
                    world,
                    seed,
                },
                tests,
                args,
                groups,
            };
            ask_rows(&means, &of)
        },
        || -> Result<Vec<LaidPoints>, Memory>
            requires { IsGroups groups.now groups.now.attrs world.now.world.rows }
            ensures { IfOk result (λ laid. AreGroupsLaid (point_by sides world.entry.now.world) groups.entry.now.lists laid.items) }
        {
            let means = Means {
                rt,
                threads: some,
                alloc,
            };
            lay_groups(&means, world, sides, groups)
        },
    )
}
