//! A spectator that notes what it is shown.
ghost use Rattle.std.specs.Prelude.{◌≡◌, ◌+◌, ◌<◌, ◌≤◌, IfOk, length};
ghost use Rattle.battle_watch.specs.Stages.{IsLastOf};
ghost use Rattle.battle_watch.specs.Watches.{AreNumbered, IsLook};
ghost use Rattle.battle_watch.specs.Watching.{HasEnded, HasLearnt, HasLooked, Notes};

use battle_report::Look;
use core::mem::replace_with;
use sgl_outside::{FIRST_SPECTATOR, Gate};
use sgl_values::{Memory, SPECTATORS_MAX};
use std::alloc::Global;
use std::marker::Model;
use std::sync::Wait;
use world_publish::{Course, Receipt, Spectator};

/// A spectator with what it noted, and with room for all that it will note.
#[derive(Drop)]
pub struct Watch<C: Course> {
    number: u32,
    spectator: Spectator<C>,
    notes: Vec<Look>,
}

impl<C: Course> Model for Watch<C> {
    ghost use Rattle.std.specs.Prelude.{◌-◌, vec_len, vec_capacity};
    ghost use Rattle.battle_watch.specs.Watching.{Watching, IsWatching};

    ghost Value = { Watching };

    ghost view = { λ w. record { number = w.number; seen = w.spectator; room = vec_capacity w.notes - vec_len w.notes; notes = w.notes.items } };

    ghost invariant = { λ w. IsWatching C.worlds record { number = w.number; seen = w.spectator; room = vec_capacity w.notes - vec_len w.notes; notes = w.notes.items } };
}

impl<C: Course> Watch<C> {
    /// A spectator that has noted nothing, with room for its looks beside the ticks and for one more.
    pub(crate) fn new(
        alloc: Global,
        number: u32,
        spectator: Spectator<C>,
        looks: u32,
    ) -> Result<Watch<C>, Memory>
        requires all { AreNumbered C.worlds }
        requires few { number < SPECTATORS_MAX }
        ensures { IfOk result (λ watch. HasLooked 0 (looks + 1) watch) }
    {
        let notes = Vec::with_capacity(alloc, looks as usize + 1)?;
        Ok(Watch {
            number,
            spectator,
            notes,
        })
    }

    // Looks once, and notes it.
    fn look<R: Wait>(&mut self, rt: &R)
        requires { 0 < self.old.room }
        ensures { Notes C.worlds self.old self.new }
    {
        let note = replace_with(&mut self.spectator, (), |spectator: Spectator<C>, _: ()| {
            look_once(rt, spectator)
        });
        self.notes.push_reserved(note);
    }

    /// Looks so often, and passes the gate before each look.
    pub(crate) fn look_often<R: Wait, G: Gate>(&mut self, rt: &R, gate: &G, looks: u32)
        requires { HasLooked 0 (looks + 1) self.old }
        ensures { HasLooked looks 1 self.new }
    {
        for look in 0..looks {
            gate.pass(FIRST_SPECTATOR + self.number, look);
            self.look(rt);
        }
    }

    /// Learns of the last receipt, where there is one, and looks once more.
    pub(crate) fn look_last<R: Wait>(&mut self, rt: &R, last: &Option<Receipt<C>>, looks: u32)
        requires looked { HasLooked looks 1 self.old }
        requires last { IsLastOf (length C.worlds) last.now }
        ensures { HasEnded C.worlds looks self.new }
    {
        self.learn_last(last);
        self.look(rt);
    }

    // Learns of the last receipt, where there is one.
    fn learn_last(&mut self, last: &Option<Receipt<C>>)
        requires { IsLastOf (length C.worlds) last.now }
        ensures { HasLearnt C.worlds self.old self.new }
    {
        if let Some(receipt) = last {
            self.spectator.learn(receipt);
        }
    }

    /// What it noted.
    pub(crate) fn notes(&self) -> &[Look]
        ensures { result.now ≡ self.now.notes }
    {
        self.notes.as_slice()
    }
}

// One look, and the note of it.
fn look_once<C: Course, R: Wait>(rt: &R, spectator: Spectator<C>) -> (Spectator<C>, Look)
    requires { AreNumbered C.worlds }
    ensures look { IsLook C.worlds result.1 }
    ensures later { spectator ≤ result.1.tick }
    ensures seen { result.0 ≡ result.1.tick }
{
    let shown = spectator.look(rt);
    let world = shown.world();
    let note = Look {
        tick: world.tick(),
        units: world.len(),
    };
    (shown.end(), note)
}
