//! A tournament tree of entries at numbered places, with the least pair of any run of places.
ghost use Rattle.std.specs.Prelude.{◌≡◌, ◌-◌, ◌*◌, ◌/◌, ◌<◌, ◌≤◌, length, replicate, slice_set, slice_index_or, IfOk, None, drop};
ghost use Rattle.extreme_sweep.specs.Pairs.{least_other_than};
ghost use Rattle.extreme_sweep.specs.Places.{entries_of, least_between};
ghost use Rattle.extreme_sweep.specs.Tree.{IsTree, IsTreeBut, StandsFor, block_at, least_of_nodes};

use crate::node::Node;
use crate::pair::{Entry, Pair};
use sgl_values::{Memory, ROWS_MAX, lesser};
use std::alloc::Global;
use std::marker::Model;

/// So many places make a block.
const BLOCK: usize = 16;

/// A tournament tree: entries at numbered places, each of which may be empty, and the least pair of any run of places.
/// Contracts see the list of what stands at the places.
///
/// The places are cut into blocks of 16. The nodes stand in one row: below node k stand the nodes 2k and 2k + 1, and the
/// last half are those of the blocks (a tournament as in tree selection, Knuth 1973, laid out as a heap). Each node keeps
/// its least entry, and the least of another group than that one.
#[derive(Debug, Drop)]
pub struct TourneyTree {
    places: Vec<Option<Entry>>,
    blocks: usize,
    nodes: Vec<Node>,
}

impl Model for TourneyTree {
    ghost use Rattle.std.specs.Prelude.{List, Option};
    ghost use Rattle.extreme_sweep.specs.declared.pair.Entry.{Entry};

    ghost Value = { List (Option Entry) };

    ghost use Rattle.extreme_sweep.specs.Tree.{IsTournament};

    ghost view = { λ t. t.places.items };

    ghost invariant = { λ t. IsTournament t.blocks t.places.items t.nodes.items };
}

impl TourneyTree {
    /// A tree of so many places, all empty: at most 65,536. It takes the memory for them; `Memory` is its only refusal,
    /// and no later call takes memory.
    pub fn new(alloc: Global, places: u32) -> Result<TourneyTree, Memory>
        requires { places ≤ ROWS_MAX }
        ensures { IfOk result (λ tree. tree ≡ replicate places None) }
    {
        let blocks = (places as usize).div_ceil(BLOCK);
        let places = vec![in alloc; None; places as usize]?;
        let nodes = vec![in alloc; Node::Empty; 2 * blocks]?;
        Ok(TourneyTree {
            places,
            blocks,
            nodes,
        })
    }

    /// Puts an entry at a place, or empties the place, in a time that grows with the logarithm of the number of places.
    pub fn set(&mut self, i: u32, entry: Option<Entry>)
        requires { i < length self.old }
        ensures { self.new ≡ slice_set self.old i entry }
    {
        let i = i as usize;
        let at = self.blocks + i / BLOCK;
        let left = self.places[i];
        self.places[i] = entry;
        let node = node_after(&self.nodes[at], self.places.as_slice(), i, left);
        // Where it is as it was, so are those above.
        if !self.nodes[at].is_same(&node) {
            self.nodes[at] = node;
            mend(&mut self.nodes, self.blocks, at / 2);
        }
    }

    /// The least pair at the places `i` to `j`, both included, whose group is not the given one; `None` exactly where
    /// there is none, as where `i` is above `j`. The time grows with the logarithm of the number of places.
    pub fn least(&self, i: u32, j: u32, other_than: Option<i64>) -> Option<Pair>
        requires first { i < length self.now }
        requires last { j < length self.now }
        ensures { result ≡ least_between self.now i j other_than }
    {
        if i > j {
            return None;
        }
        let (i, end) = (i as usize, j as usize + 1);
        let (first, last) = (i / BLOCK + 1, j as usize / BLOCK);
        if last < first {
            return least_of_places(&self.places[i..end], other_than);
        }
        let before = least_of_places(&self.places[i..first * BLOCK], other_than);
        let behind = least_of_places(&self.places[last * BLOCK..end], other_than);
        let (low, high) = (self.blocks + first, self.blocks + last);
        let between = least_of_span(self.nodes.as_slice(), low, high, other_than);
        lesser(lesser(before, between), behind)
    }
}

// The least pair at some places whose group is not the given one, found by looking at each.
fn least_of_places(places: &[Option<Entry>], other_than: Option<i64>) -> Option<Pair>
    ensures { result ≡ least_other_than other_than (entries_of places.now) }
{
    let mut least = None;
    for place in places {
        least = lesser(least, Node::leaf(*place).least(other_than));
    }
    least
}

// The node of the block of a place, from the node that the block had with what stood at the place before.
fn node_after(node: &Node, places: &[Option<Entry>], i: usize, left: Option<Entry>) -> Node
    requires inside { i < length places.now }
    requires before { StandsFor node.now (block_at (slice_set places.now i left) (i / 16)) }
    ensures { StandsFor result (block_at places.now (i / 16)) }
{
    match node.replaced(left, places[i]) {
        Some(node) => node,
        None => node_of_block(places, i / BLOCK),
    }
}

// The node of a block.
fn node_of_block(places: &[Option<Entry>], block: usize) -> Node
    requires { 16 * block < length places.now }
    ensures { StandsFor result (block_at places.now block) }
{
    let first = block * BLOCK;
    let end = places.len().min(first + BLOCK);
    node_of_places(&places[first..end])
}

// The node of some places.
fn node_of_places(places: &[Option<Entry>]) -> Node
    ensures { StandsFor result places.now }
{
    let mut node = Node::Empty;
    for place in places {
        if let Some(entry) = place {
            node = Node::joined(&node, &Node::Single(*entry));
        }
    }
    node
}

// Joins anew each node from this one up, all others being joined.
fn mend(nodes: &mut Vec<Node>, leaves: usize, mut at: usize)
    requires inside { at < leaves }
    requires others { IsTreeBut at leaves nodes.old.items }
    ensures tree { IsTree leaves nodes.new.items }
    ensures leaves { drop leaves nodes.new.items ≡ drop leaves nodes.old.items }
{
    while at > 0 {
        let node = Node::joined(&nodes[2 * at], &nodes[2 * at + 1]);
        // Where it is as it was, so are those above.
        if nodes[at].is_same(&node) {
            return;
        }
        nodes[at] = node;
        at /= 2;
    }
}

// The least pair below the nodes from `low` to before `high` whose group is not the given one. Nodes at the ends that
// have no fellow among them are taken alone, and the others by those above them.
fn least_of_span(
    nodes: &[Node],
    mut low: usize,
    mut high: usize,
    other_than: Option<i64>,
) -> Option<Pair>
    requires tree { IsTree (length nodes.now / 2) nodes.now }
    requires first { 0 < low }
    requires order { low ≤ high }
    requires last { high ≤ length nodes.now }
    ensures { result ≡ least_of_nodes other_than nodes.now low (high - low) }
{
    let mut least = None;
    while low < high {
        if low % 2 == 1 {
            least = lesser(least, nodes[low].least(other_than));
            low += 1;
        }
        if high % 2 == 1 {
            high -= 1;
            least = lesser(least, nodes[high].least(other_than));
        }
        low /= 2;
        high /= 2;
    }
    least
}
