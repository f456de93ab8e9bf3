//! The answers of the uses of extremes, each once, and which of them are those of a node.
ghost use Rattle.std.specs.Prelude.{◌≡◌, ◌≤◌, ◌+◌, true, length, slice_get, slice_index_or, IfOk, IfSome, None, OnOk, Some};
ghost use Rattle.std.specs.Option.{option_copied, option_map};
ghost use Rattle.index_set.specs.Prepared.{AreReady, IsPreparedFor};
ghost use Rattle.index_set.specs.Sweeps.{AreAllSwept, AreOwnOf, AreSweptTo, AreUsesOf, IsSameAt, IsSameCall, IsSweepCall, IsSweptAt, KeepsUses, call_in, swept_in};

use crate::kept::kept_at;
use crate::prepared::{PreparedUse, use_of_node};
use crate::ready::Ready;
use crate::source::Source;
use crate::sweep_call::{SweepCall, is_call_of, sweep_call};
use crate::swept_use::SweptUse;
use battle_algebra::Node;
use group_sweeps::{Means, Swept};
use sgl_typed::AggUse;
use sgl_values::{List, Memory};
use std::alloc::Global;
use std::thread::Threads;

/// All answers, each once, and by number of node which of them are those of its call.
#[derive(Debug, Drop)]
pub(crate) struct Sweeps {
    pub(crate) uses: List<SweptUse>,
    pub(crate) nodes: Vec<Option<usize>>,
}

impl Sweeps {
    /// None.
    pub(crate) fn new(alloc: Global, of: &Source) -> Sweeps
        ensures { AreSweptTo result of.now 0 }
    {
        let _ = of;
        Sweeps {
            uses: List::new(alloc),
            nodes: Vec::new(alloc),
        }
    }

    /// The answers of the call of a node. It takes no memory.
    pub(crate) fn at(&self, node: u32) -> Option<&Swept>
        ensures { option_copied result ≡ swept_in self.now node }
    {
        match kept_at(&self.nodes, node) {
            None => None,
            Some(number) => self.swept(*number),
        }
    }

    // The answers with this number.
    fn swept(&self, number: usize) -> Option<&Swept>
        ensures { option_copied result ≡ option_map (λ kept. kept.swept) (slice_get self.now.uses number) }
    {
        match self.uses.get(number) {
            None => None,
            Some(found) => Some(&found.swept),
        }
    }

    // Answers for the next node, where its call is answered by a sweep.
    fn add_node<R: Threads + Sync>(
        &mut self,
        means: &Means<R>,
        from: &Ready,
        node: usize,
    ) -> Result<(), Memory>
        requires from { AreReady from.now }
        requires swept { AreSweptTo self.old from.now.of.now node }
        ensures { OnOk result (AreSweptTo self.new from.now.of.now (node + 1)) }
    {
        match sweep_call(from.of, node) {
            None => {
                self.nodes.push(None)?;
                Ok(())
            }
            Some(found) => {
                let one = self.use_for(means, from, found)?;
                self.nodes.push(one)?;
                Ok(())
            }
        }
    }

    // The number of the answers of a call, which are swept where there are none and it is ready.
    fn use_for<R: Threads + Sync>(
        &mut self,
        means: &Means<R>,
        from: &Ready,
        found: SweepCall,
    ) -> Result<Option<usize>, Memory>
        requires from { AreReady from.now }
        requires sweep { IsSweepCall found from.now.of.now }
        requires uses { AreUsesOf self.old from.now.of.now }
        ensures own { IfOk result (λ one. AreOwnOf self.new one from.now.of.now found.entry.node) }
        ensures uses { OnOk result (AreUsesOf self.new from.now.of.now) }
        ensures keeps { OnOk result (KeepsUses self.old self.new) }
    {
        if let Some(number) = self.find(from.of.nodes(), found.call) {
            return Ok(Some(number));
        }
        match use_of_node(from.uses, found.node) {
            None => Ok(None),
            Some(at) => {
                let number = self.sweep_use(means, from, at, found)?;
                Ok(Some(number))
            }
        }
    }

    // Sweeps a call that is ready.
    fn sweep_use<R: Threads + Sync>(
        &mut self,
        means: &Means<R>,
        from: &Ready,
        ready: &PreparedUse,
        found: SweepCall,
    ) -> Result<usize, Memory>
        requires from { AreReady from.now }
        requires sweep { IsSweepCall found from.now.of.now }
        requires ready { IsPreparedFor ready.now from.now.shelf.now from.now.of.now found }
        requires uses { AreUsesOf self.old from.now.of.now }
        ensures at { IfOk result (λ number. IsSweptAt self.new.uses number from.now.of.now.script.now from.now.of.now.world.now.world from.now.of.now.seed found.entry.call.now) }
        ensures uses { OnOk result (AreUsesOf self.new from.now.of.now) }
        ensures keeps { OnOk result (KeepsUses self.old self.new) }
    {
        let of = from.of;
        let number = self.uses.len();
        let swept = ready.sweep.answers(
            means,
            of.world,
            of.keys,
            found.agg,
            &from.shelf.partitions.as_slice()[ready.groups],
        )?;
        self.uses.push(SweptUse {
            node: found.node,
            swept,
        })?;
        Ok(number)
    }

    // The number of the answers of an equal call: of the same aggregate, with the same arguments.
    fn find(&self, nodes: &[Node], call: &AggUse) -> Option<usize>
        ensures { IfSome result (λ number. IsSameAt self.now.uses number nodes.now call.now) }
    {
        for number in 0..self.uses.len() {
            if self.is_same(number, nodes, call) {
                return Some(number);
            }
        }
        None
    }

    fn is_same(&self, number: usize, nodes: &[Node], call: &AggUse) -> bool
        ensures { result ≡ true → IsSameAt self.now.uses number nodes.now call.now }
    {
        match self.uses.get(number) {
            None => false,
            Some(found) => is_call_of(nodes, found.node, call),
        }
    }
}

/// The answers of the calls that are answered by sweeps, each once, for all nodes. A call that is not ready has none.
pub(crate) fn sweep_nodes<R: Threads + Sync>(
    means: &Means<R>,
    from: &Ready,
) -> Result<Sweeps, Memory>
    requires { AreReady from.now }
    ensures { IfOk result (λ sweeps. AreAllSwept sweeps from.now.of.now) }
{
    let mut sweeps = Sweeps::new(means.alloc, from.of);
    for node in 0..from.of.nodes().len() {
        sweeps.add_node(means, from, node)?;
    }
    Ok(sweeps)
}
