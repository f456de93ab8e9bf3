//! The uses of extremes, each once, made ready to be swept.
ghost use Rattle.std.specs.Prelude.{IfOk, IfSome, OnOk};
ghost use Rattle.index_set.specs.Prepared.{ArePreparedOf, IsPreparedAt, IsUseOf};
ghost use Rattle.index_set.specs.Shelves.{IsShelfOf};
ghost use Rattle.index_set.specs.Sweeps.{IsSweepCall};

use crate::shelf::Shelf;
use crate::source::Source;
use crate::sweep_call::{SweepCall, is_call_of, sweep_call};
use battle_algebra::Node;
use group_sweeps::{Means, PreparedSweep, prepare_sweep};
use sgl_typed::AggUse;
use sgl_values::{List, Memory};
use std::thread::Threads;
use test_boxes::{GroupingAttrs, Reading};

/// The call of a node, ready to be swept over the partition with this number.
#[derive(Debug, Drop)]
pub(crate) struct PreparedUse {
    pub(crate) node: usize,
    pub(crate) groups: usize,
    pub(crate) sweep: PreparedSweep,
}

/// Uses that are ready, and the shelf with their partitions.
#[derive(Debug, Drop)]
pub(crate) struct Prepared {
    pub(crate) shelf: Shelf,
    pub(crate) uses: List<PreparedUse>,
}

/// Makes the calls that are answered by sweeps ready, each once, for all nodes. The partitions are on the shelf; a call whose
/// partition is not is left out.
pub(crate) fn prepare_nodes<R: Threads + Sync>(
    shelf: &Shelf,
    means: &Means<R>,
    of: &Source,
) -> Result<List<PreparedUse>, Memory>
    requires { IsShelfOf shelf.now of.now }
    ensures { IfOk result (λ ready. ArePreparedOf ready shelf.now of.now) }
{
    let mut ready = List::new(means.alloc);
    for node in 0..of.nodes().len() {
        prepare_node(&mut ready, shelf, means, of, node)?;
    }
    Ok(ready)
}

// Makes the call of a node ready, where it is answered by a sweep, no equal one is ready and the
// partition of its tests is there.
fn prepare_node<R: Threads + Sync>(
    ready: &mut List<PreparedUse>,
    shelf: &Shelf,
    means: &Means<R>,
    of: &Source,
    node: usize,
) -> Result<(), Memory>
    requires shelf { IsShelfOf shelf.now of.now }
    requires ready { ArePreparedOf ready.old shelf.now of.now }
    ensures { OnOk result (ArePreparedOf ready.new shelf.now of.now) }
{
    match sweep_call(of, node) {
        None => Ok(()),
        Some(found) => {
            if is_ready(ready, of.nodes(), found.call) {
                return Ok(());
            }
            match prepare_call(shelf, means, of, found)? {
                None => Ok(()),
                Some(one) => {
                    ready.push(one)?;
                    Ok(())
                }
            }
        }
    }
}

// A call made ready, where the partition of its tests is there.
fn prepare_call<R: Threads + Sync>(
    shelf: &Shelf,
    means: &Means<R>,
    of: &Source,
    found: SweepCall,
) -> Result<Option<PreparedUse>, Memory>
    requires sweep { IsSweepCall found of.now }
    requires shelf { IsShelfOf shelf.now of.now }
    ensures { IfOk result (λ one. IfSome one (λ kept. IsPreparedAt kept shelf.now of.now found.entry)) }
{
    let attrs = GroupingAttrs::of(found.agg.tests.as_slice(), Reading::Away);
    match shelf.find_groups(attrs.as_slice()) {
        None => Ok(None),
        Some(groups) => {
            let sweep = prepare_sweep(
                means,
                of.script,
                of.world,
                of.seed,
                found.agg,
                found.call.args.as_slice(),
                &shelf.partitions.as_slice()[groups],
            )?;
            Ok(Some(PreparedUse {
                node: found.node,
                groups,
                sweep,
            }))
        }
    }
}

// Whether an equal call is ready.
fn is_ready(ready: &List<PreparedUse>, nodes: &[Node], call: &AggUse) -> bool {
    for other in ready.as_slice() {
        if is_call_of(nodes, other.node, call) {
            return true;
        }
    }
    false
}

/// The use of a node, where its call is ready.
pub(crate) fn use_of_node(ready: &List<PreparedUse>, node: usize) -> Option<&PreparedUse>
    ensures { IfSome result (λ found. IsUseOf ready.entry.now found.now node) }
{
    for number in 0..ready.len() {
        if let Some(found) = use_at(ready, number, node) {
            return Some(found);
        }
    }
    None
}

// The same where it has this number.
fn use_at(ready: &List<PreparedUse>, number: usize, node: usize) -> Option<&PreparedUse>
    ensures { IfSome result (λ found. IsUseOf ready.entry.now found.now node) }
{
    match ready.get(number) {
        None => None,
        Some(found) => {
            if found.node == node {
                Some(found)
            } else {
                None
            }
        }
    }
}
