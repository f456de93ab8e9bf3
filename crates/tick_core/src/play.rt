//! Plays events on a core one behind the other, and tells the first that is not allowed.
ghost use Rattle.std.specs.Prelude.{◌≡◌, ◌+◌, ◌<◌, true, length, OnOk, OnErr, IfOk, IfErr};
ghost use Rattle.tick_core.specs.Core.{splits};
ghost use Rattle.tick_core.specs.Events.{is_allowed, after, answer_of};
ghost use Rattle.tick_core.specs.Fair.{Fair};
ghost use Rattle.tick_core.specs.Plays.{run, answers_of, first_bad, IsStopped, SameTable};

use crate::core_tick::CoreTick;
use crate::event::{CoreEvent, PlayFault};
use sgl_values::{List, Memory};

impl CoreTick {
    /// Plays events one behind the other, and answers one entry for each: the task that a claim takes, where one is left,
    /// the number of a worker that is split off, and else `None`. `Bad` comes exactly at the first event of a worker who
    /// does not live, with a word that there is not, or that joins a worker into itself. After a refusal the core stands
    /// behind some of the first events; after `Bad` behind all before that one. The events and the workers split off
    /// before are together fewer than 4,294,967,295.
    pub fn play(&mut self, events: &[CoreEvent]) -> Result<List<Option<u32>>, PlayFault>
        requires { length events.now + splits self.old < 4294967295 }
        ensures allowed { OnOk result (first_bad 0 events.now self.old ≡ None) }
        ensures state { OnOk result (self.new ≡ run events.now self.old) }
        ensures answers { IfOk result (λ answers. answers ≡ answers_of events.now self.old) }
        ensures stopped { IfErr result (λ fault. IsStopped events.now fault self.old self.new) }
        ensures table { SameTable self.old self.new }
        ensures fair { Fair self.new }
    {
        let Ok(mut answers) = Vec::with_capacity(self.allocator(), events.len()) else {
            return Err(PlayFault::Memory);
        };
        for (at, event) in events.iter().enumerate() {
            if !self.allows(*event) {
                return Err(PlayFault::Bad { at: at as u32 });
            }
            let Ok(answer) = self.befall(*event) else {
                return Err(PlayFault::Memory);
            };
            // It is not refused, as there is room.
            let _ = answers.push(answer);
        }
        Ok(List::from_vec(answers))
    }

    // An event that is allowed befalls the core.
    fn befall(&mut self, event: CoreEvent) -> Result<Option<u32>, Memory>
        requires allowed { is_allowed event self.old ≡ true }
        requires few { splits self.old < 4294967295 }
        ensures event { OnOk result (self.new ≡ after event self.old) }
        ensures answer { IfOk result (λ answer. answer ≡ answer_of event self.old) }
        ensures err { OnErr result (self.new ≡ self.old) }
        ensures table { SameTable self.old self.new }
        ensures fair { Fair self.new }
    {
        match event {
            CoreEvent::Claim { worker } => self.claim(worker),
            CoreEvent::Give {
                worker,
                word,
                amount,
            } => {
                self.give(worker, word, amount)?;
                Ok(None)
            }
            CoreEvent::Split { worker } => Ok(Some(self.split(worker)?)),
            CoreEvent::Join { into, from } => {
                self.join(into, from)?;
                Ok(None)
            }
            CoreEvent::Turn => {
                self.turn();
                Ok(None)
            }
        }
    }
}
