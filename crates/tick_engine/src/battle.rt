//! A battle: a script, and the world of the last tick.
ghost use Rattle.std.specs.Prelude.{◌≡◌, ◌≢◌, ◌<◌, ◌≤◌, [], IfErr, IfOk, Ok, Err, OnErr, OnOk, length, true, false};
ghost use Rattle.battle_algebra.specs.Plans.{tree_in};
ghost use Rattle.plan_rewrite.specs.Rewritten.{Rewrites};
ghost use Rattle.sgl_typed.specs.Tick.{tick};
ghost use Rattle.task_scratch.specs.Scratch.{reach_at};
ghost use Rattle.tick_engine.specs.Jobs.{AreReached};

use crate::plain::next_world;
use crate::prepared::Setup;
use crate::preparing::prepare_tick;
use crate::settings::EngineSettings;
use crate::spare::{Spare, no_spare};
use crate::ticking::run_planned;
use battle_algebra::NormalPlan;
use battle_compile::Compiled;
use env_table::World;
use plan_rewrite::rewrite;
use sgl_outside::Gate;
use sgl_typed::{TScript, TickFault};
use sgl_values::{ITEMS_MAX, Memory, TICKS_MAX, WORKERS_MAX};
use std::alloc::Global;
use std::marker::Model;
use std::mem::replace;
use std::thread::Threads;

/// A script with its plan, and the world of the last tick, with what the next tick needs where it is prepared.
#[derive(Drop)]
pub struct Battle {
    alloc: Global,
    script: TScript,
    plan: NormalPlan,
    world: World,
    settings: EngineSettings,
    setup: Option<Setup>,
    // What earlier ticks of the plan left.
    spare: Spare,
    reached: Vec<u64>,
}

impl Model for Battle {
    ghost use Rattle.std.specs.Coded.{codes};
    ghost use Rattle.battle_algebra.specs.contracts.normal_plan.NormalPlan as plans;
    ghost use Rattle.sgl_typed.specs.contracts.script.TScript as scripts;
    ghost use Rattle.tick_engine.specs.State.{State};

    ghost Value = { State };

    ghost coded = { Prim.hlevel (codes, scripts.the_row.coded, plans.the_row.coded) };

    ghost use Rattle.tick_engine.specs.Battles.{state_of, IsBattle};

    ghost view = { state_of };

    ghost invariant = { IsBattle };
}

impl Battle {
    /// A battle before its first tick, which is not prepared. The world has the width of the script, there are 1 to 64
    /// workers, and a tick has at most 8,000,000 items. The plan is rewritten to normal form. `Memory` is the only refusal.
    pub fn new(
        alloc: Global,
        compiled: Compiled,
        world: World,
        settings: EngineSettings,
    ) -> Result<Battle, Memory>
        requires width { world.width ≡ length compiled.script.schema.consts }
        requires workers { (0 < settings.workers) × (settings.workers ≤ WORKERS_MAX) }
        requires items { settings.items ≤ ITEMS_MAX }
        ensures script { IfOk result (λ battle. battle.script ≡ compiled.script) }
        ensures plan { IfOk result (λ battle. Rewrites compiled.script compiled.plan.slots (tree_in compiled.plan.nodes) (tree_in battle.plan.plan.nodes)) }
        ensures slots { IfOk result (λ battle. battle.plan.plan.slots ≡ compiled.plan.slots) }
        ensures world { IfOk result (λ battle. battle.world ≡ world) }
        ensures settings { IfOk result (λ battle. battle.settings ≡ settings) }
        ensures ready { IfOk result (λ battle. battle.ready ≡ false) }
        ensures reached { IfOk result (λ battle. battle.reached ≡ []) }
    {
        let Compiled { script, plan } = compiled;
        let plan = rewrite(alloc, &script, plan)?;
        Ok(Battle {
            alloc,
            script,
            plan,
            world,
            settings,
            setup: None,
            spare: no_spare(alloc),
            reached: Vec::new(alloc),
        })
    }

    /// Whether the next tick is prepared.
    pub fn is_ready(&self) -> bool
        ensures { result ≡ self.now.ready }
    {
        self.setup.is_some()
    }

    /// The world of the last tick.
    pub fn world(&self) -> &World
        ensures world { result.now ≡ self.now.world }
        ensures width { result.now.width ≡ length self.now.script.schema.consts }
    {
        &self.world
    }

    /// A copy of the world of the last tick. `Memory` is its only refusal.
    pub fn copy_world(&self) -> Result<World, Memory>
        ensures { IfOk result (λ world. world ≡ self.now.world) }
    {
        self.world.copy(self.alloc)
    }

    /// The plan in normal form.
    pub fn normal(&self) -> &NormalPlan
        ensures { result.now ≡ self.now.plan }
    {
        &self.plan
    }

    /// The script, whose routines are written out.
    pub fn script(&self) -> &TScript
        ensures { result.now ≡ self.now.script }
    {
        &self.script
    }

    /// The script, given up with the battle.
    pub fn into_script(self) -> TScript
        ensures { result ≡ self.script }
    {
        self.script
    }

    /// The counts of `reach`, node by node; a node past the end of the list has the count 0.
    pub fn counts(&self) -> &[u64]
        ensures { result.now ≡ self.now.reached }
    {
        self.reached.as_slice()
    }

    /// How many frames reached a node in the last tick of the plan that was not refused, where there was one.
    pub fn reach(&self, node: u32) -> u64
        ensures { result ≡ reach_at self.now.reached node }
    {
        self.reached.get(node as usize).copied().unwrap_or(0)
    }

    /// Takes all memory that the next tick of the plan needs, and makes the battle ready. `Memory` is its only refusal, and
    /// then the battle is not ready. What earlier ticks took for the rows of worlds and for the rooms of workers is used
    /// again, and taken anew only for more units than before, behind a refusal, or where a prepared tick was not run.
    /// With the plain engine it takes none.
    pub fn prepare<R: Threads + Sync>(&mut self, rt: &R) -> Result<(), Memory>
        requires early { self.old.world.world.tick < TICKS_MAX }
        ensures script { (self.new.script ≡ self.old.script) × (self.new.plan ≡ self.old.plan) }
        ensures world { self.new.world ≡ self.old.world }
        ensures settings { self.new.settings ≡ self.old.settings }
        ensures reached { self.new.reached ≡ self.old.reached }
        ensures ready { OnOk result (self.new.ready ≡ true) }
        ensures refused { OnErr result (self.new.ready ≡ false) }
    {
        self.setup = None;
        self.spare.early = None;
        match prepare_tick(
            rt,
            self.alloc,
            &self.script,
            &self.plan,
            &self.world,
            self.settings,
            &mut self.spare,
        ) {
            Ok(setup) => {
                self.setup = Some(setup);
                Ok(())
            }
            Err(Memory) => Err(Memory),
        }
    }

    /// Runs the tick that was prepared: the world is the next one, or the tick is refused and the world is as it was. With
    /// the plan engine it takes no memory, and `Memory` never comes. The battle is not ready behind it.
    pub fn run_prepared<G: Gate, R: Threads + Sync>(
        &mut self,
        rt: &R,
        gate: &G,
    ) -> Result<(), TickFault>
        requires ready { self.old.ready ≡ true }
        ensures next { OnOk result (tick self.old.script self.old.world.world self.old.settings.seed self.old.settings.items ≡ Ok self.new.world.world) }
        ensures width { self.new.world.width ≡ self.old.world.width }
        ensures fault { IfErr result (λ fault. fault ≢ TickFault.Memory → tick self.old.script self.old.world.world self.old.settings.seed self.old.settings.items ≡ Err fault) }
        ensures room { self.old.settings.plain ≡ false → IfErr result (λ fault. fault ≢ TickFault.Memory) }
        ensures refused { OnErr result (self.new.world ≡ self.old.world) }
        ensures kept { OnErr result (self.new.reached ≡ self.old.reached) }
        ensures reach { self.old.settings.plain ≡ false → OnOk result (AreReached self.old.script self.old.plan self.old.world.world self.old.settings.seed self.new.reached) }
        ensures script { (self.new.script ≡ self.old.script) × (self.new.plan ≡ self.old.plan) }
        ensures settings { self.new.settings ≡ self.old.settings }
        ensures used { self.new.ready ≡ false }
    {
        match self.setup.take().unwrap() {
            Setup::Plain => {
                let next = next_world(self.alloc, &self.script, &self.world, self.settings)?;
                self.world = next;
                Ok(())
            }
            Setup::Planned(prepared) => {
                let (next, reached) = run_planned(
                    rt,
                    gate,
                    &self.script,
                    &self.plan,
                    &self.world,
                    self.settings,
                    prepared,
                    self.alloc,
                    &mut self.spare,
                )?;
                self.spare.world = Some(replace(&mut self.world, next));
                self.reached = reached;
                Ok(())
            }
        }
    }

    /// Takes the memory of the next tick, and runs it. `Memory` may come in place of any other answer.
    pub fn run_tick<G: Gate, R: Threads + Sync>(
        &mut self,
        rt: &R,
        gate: &G,
    ) -> Result<(), TickFault>
        requires early { self.old.world.world.tick < TICKS_MAX }
        ensures next { OnOk result (tick self.old.script self.old.world.world self.old.settings.seed self.old.settings.items ≡ Ok self.new.world.world) }
        ensures width { self.new.world.width ≡ self.old.world.width }
        ensures fault { IfErr result (λ fault. fault ≢ TickFault.Memory → tick self.old.script self.old.world.world self.old.settings.seed self.old.settings.items ≡ Err fault) }
        ensures refused { OnErr result (self.new.world ≡ self.old.world) }
        ensures kept { OnErr result (self.new.reached ≡ self.old.reached) }
        ensures reach { self.old.settings.plain ≡ false → OnOk result (AreReached self.old.script self.old.plan self.old.world.world self.old.settings.seed self.new.reached) }
        ensures script { (self.new.script ≡ self.old.script) × (self.new.plan ≡ self.old.plan) }
        ensures settings { self.new.settings ≡ self.old.settings }
        ensures used { self.new.ready ≡ false }
    {
        match self.prepare(rt) {
            Ok(()) => self.run_prepared(rt, gate),
            Err(Memory) => Err(TickFault::Memory),
        }
    }
}
