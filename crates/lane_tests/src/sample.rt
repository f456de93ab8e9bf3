//! A made world of 64 units, a lane to each, with slots of every sort.
ghost use Rattle.std.specs.Prelude.{◌≡◌, ◌<◌, ◌≤◌, ◌+◌, ◌-◌, ◌*◌, ℕ, length, slice_range, IfOk, IsTrue};
ghost use Rattle.sgl_values.specs.World.{row_at};
ghost use Rattle.sgl_evaluate.specs.Frame.{context_of, IsFrame};

use env_table::{World, WorldBuilder};
use sgl_evaluate::{Frame, TickContext, attribute_of};
use sgl_lanes::LaneContexts;
use sgl_typed::{Attr, TScript};
use sgl_values::{ArithFault, Boxed, Fault, Memory, Num, Place, Val};
use std::alloc::Global;
use tick_random::random;

/// The place of all faults.
pub const PLACE: Place = Place { line: 1, col: 1 };

/// A unit for each lane, which writes to the unit as far from the other end, and has three slots.
#[derive(Clone, Copy)]
pub struct Sample<'a> {
    pub frame: Frame<'a>,
    pub slots: &'a [Val],
}

impl<'a> Sample<'a> {
    /// Whether there is a unit for each lane, with its slots.
    pub fn is_whole(&self) -> bool
        ensures rows { IsTrue result → 64 ≤ length self.now.frame.tick.world.now.world.rows }
        ensures slots { IsTrue result → 192 ≤ length self.now.slots.now }
    {
        self.frame.tick.world.len() >= 64 && self.slots.len() >= 192
    }

    /// What the unit of a lane is evaluated in alone.
    pub fn frame_at(&self, lane: u32) -> Frame<'a>
        requires lane { lane < 64 }
        requires rows { 64 ≤ length self.now.frame.tick.world.now.world.rows }
        requires slots { 192 ≤ length self.now.slots.now }
        ensures { IsFrame result }
    {
        let from = lane as usize * 3;
        Frame {
            tick: self.frame.tick,
            unit: lane,
            slots: &self.slots[from..from + 3],
            target: 63 - lane,
            combined: self.frame.combined,
        }
    }
}

impl LaneContexts for Sample<'_> {
    ghost can_read = { λ s k. (k < 64) × (64 ≤ length s.frame.tick.world.now.world.rows) × (192 ≤ length s.slots.now) };

    ghost context = { λ s k. record (context_of s.frame) {
      unit = row_at s.frame.tick.world.now.world k;
      slots = slice_range s.slots.now (k * 3) (k * 3 + 3);
      target = row_at s.frame.tick.world.now.world (63 - k);
    } };

    fn unit(&self, lane: u32, attr: Attr) -> Num {
        attribute_of(self.frame.tick.world, lane, attr)
    }

    fn target(&self, lane: u32, attr: Attr) -> Num {
        attribute_of(self.frame.tick.world, 63 - lane, attr)
    }

    fn slot(&self, lane: u32, slot: u32) -> Val {
        let from = lane as usize * 3;
        let slots = &self.slots[from..from + 3];
        slots
            .get(slot as usize)
            .copied()
            .unwrap_or(Val::N(Num::zero()))
    }

    fn combined(&self, _lane: u32, effect: u32) -> Num {
        self.frame
            .combined
            .get(effect as usize)
            .copied()
            .unwrap_or(Num::zero())
    }

    fn random(&self, lane: u32, index: u16) -> Num {
        let world = self.frame.tick.world;
        random(self.frame.tick.seed, world.tick(), world.key(lane), index)
    }
}

// 64 units whose second attribute is 0 in each seventh lane.
fn world(alloc: Global) -> Result<World, Memory>
    ensures { IfOk result (λ world. world.width ≡ 2) }
{
    let mut builder = WorldBuilder::with_room(alloc, 9, 2, 64)?;
    for lane in 0..64_u32 {
        let values = [Num::whole(lane * 37), Num::whole(lane % 7)];
        match builder.push(lane * 3 + 1, values.as_slice()) {
            Ok(()) => {}
            Err(_) => return Err(Memory),
        }
    }
    Ok(builder.finish(1_000))
}

// A number, a truth, and a number, a truth or a fault by the lane.
fn slots(alloc: Global) -> Result<Vec<Val>, Memory> {
    let fault = Fault {
        kind: ArithFault::Overflow,
        place: PLACE,
    };
    let mut slots = Vec::new(alloc);
    for lane in 0..64_u32 {
        slots.push(Val::N(Num::whole(lane % 5).negated()))?;
        slots.push(Val::B(lane % 3 == 0))?;
        slots.push(match lane % 4 {
            0 => Val::N(Num::whole(lane)),
            1 => Val::F(fault),
            _ => Val::B(lane > 9),
        })?;
    }
    Ok(slots)
}

/// What a sample looks at. The script stands on the heap, since a function that gives up a whole
/// script is long to prove.
#[derive(Drop)]
pub struct Parts {
    world: World,
    script: Boxed<TScript>,
    slots: Vec<Val>,
    combined: [Num; 1],
}

/// The made world, with a script that the expressions do not look into.
pub fn make_parts(alloc: Global) -> Result<Parts, Memory> {
    let world = world(alloc)?;
    let slots = slots(alloc)?;
    let script = Boxed::new(alloc, TScript::idle(alloc))?;
    Ok(Parts {
        world,
        script,
        slots,
        combined: [Num::whole(77)],
    })
}

impl Parts {
    /// The lanes of these parts.
    pub fn sample(&self) -> Sample<'_> {
        let frame = Frame {
            tick: TickContext {
                script: self.script.get(),
                world: &self.world,
                seed: 5,
            },
            unit: 0,
            slots: &[],
            target: 0,
            combined: &self.combined,
        };
        Sample {
            frame,
            slots: self.slots.as_slice(),
        }
    }
}
