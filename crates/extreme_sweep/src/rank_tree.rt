//! A tournament tree of ranks.
ghost use Rattle.std.specs.Prelude.{◌≡◌, ◌-◌, ◌*◌, ◌/◌, ◌<◌, ◌≤◌, ℕ, ℤ, List, length, map, replicate, slice_set, IfOk, drop};
ghost use Rattle.extreme_sweep.specs.Pairs.{least_other_than};
ghost use Rattle.extreme_sweep.specs.Places.{entries_of, least_between};
ghost use Rattle.extreme_sweep.specs.Ranks.{lesser_counted, no_rank, pair_of_rank, rank_entries, unpacked, ArePacked, ArePlaced, CanEnter, HasLeft, IsPacked, IsRankTree};
ghost use Rattle.extreme_sweep.specs.Tree.{IsShortOf, IsTree, IsTreeBut, StandsFor, block_at, least_of_nodes};

use crate::rank_node::{NONE, RankNode};
use sgl_values::{Memory, ROWS_MAX};
use std::alloc::Global;

/// So many places make a block.
const BLOCK: usize = 16;

/// A tournament tree as `TourneyTree`, whose entries are named by their ranks, so that it takes a fourth of the memory and
/// compares numbers. A place is empty where its rank is `NONE`. `leave` and `least` take the groups of all places: that of
/// a place is the group of the rank that stands there.
#[derive(Debug, Drop)]
pub(crate) struct RankTree {
    places: Vec<u32>,
    blocks: usize,
    nodes: Vec<RankNode>,
}

impl RankTree {
    /// A tree of so many places, all empty. `Memory` is its only refusal.
    pub(crate) fn new(alloc: Global, places: u32) -> Result<RankTree, Memory>
        requires { places ≤ ROWS_MAX }
        ensures tree { IfOk result (λ tree. (groups by_place : List ℤ) → length groups ≤ ROWS_MAX → length by_place ≡ places → IsRankTree groups by_place tree) }
        ensures places { IfOk result (λ tree. tree.places.items ≡ replicate places no_rank) }
    {
        let blocks = (places as usize).div_ceil(BLOCK);
        let places = vec![in alloc; NONE; places as usize]?;
        let nodes = vec![in alloc; RankNode::empty(); 2 * blocks]?;
        Ok(RankTree {
            places,
            blocks,
            nodes,
        })
    }

    /// Puts a rank, with its group, at an empty place, in a time that grows with the logarithm of the number of places.
    pub(crate) fn enter(&mut self, place: u32, rank: u32, group: i64)
        requires tree { (groups : List ℤ) × ((by_place : List ℤ) × IsRankTree groups by_place self.old) }
        requires place { place < length self.old.places.items }
        requires rank { rank < no_rank }
        ensures tree { (groups by_place : List ℤ) → IsRankTree groups by_place self.old → CanEnter groups by_place self.old.places.items place rank group → IsRankTree groups by_place self.new }
        ensures places { self.new.places.items ≡ slice_set self.old.places.items place rank }
    {
        let i = place as usize;
        let at = self.blocks + i / BLOCK;
        self.places[i] = rank;
        let leaf = RankNode::single(rank, group);
        let node = RankNode::joined(&self.nodes[at], &leaf);
        // Where it is as it was, so are those above.
        if !self.nodes[at].is_same(&node) {
            self.nodes[at] = node;
            join_up(&mut self.nodes, self.blocks, at / 2, &leaf);
        }
    }

    /// Empties a place, in a time that grows with the logarithm of the number of places.
    pub(crate) fn leave(&mut self, groups: &[i64], place: u32)
        requires tree { (all : List ℤ) × IsRankTree all groups.now self.old }
        requires place { place < length self.old.places.items }
        ensures tree { (all : List ℤ) → IsRankTree all groups.now self.old → IsRankTree all groups.now self.new }
        ensures places { self.new.places.items ≡ slice_set self.old.places.items place no_rank }
    {
        let i = place as usize;
        let at = self.blocks + i / BLOCK;
        let left = self.places[i];
        self.places[i] = NONE;
        // A node that does not keep the rank stays as it is, and so do those above.
        if self.nodes[at].keeps(left) {
            self.nodes[at] = node_of_block(groups, self.places.as_slice(), i / BLOCK);
            mend(&mut self.nodes, self.blocks, at / 2, left);
        }
    }

    /// The least rank at the places `i` to `j`, both included, whose group is not the given one; `NONE` where there is
    /// none. The time grows with the logarithm of the number of places.
    pub(crate) fn least(&self, groups: &[i64], i: u32, j: u32, other_than: Option<i64>) -> u32
        requires tree { (all : List ℤ) × IsRankTree all groups.now self.now }
        requires order { i ≤ j }
        requires last { j < length self.now.places.items }
        ensures { (all : List ℤ) → IsRankTree all groups.now self.now → pair_of_rank result ≡ least_between (rank_entries all self.now.places.items) i j other_than }
    {
        let (i, end) = (i as usize, j as usize + 1);
        let (first, last) = (i / BLOCK + 1, j as usize / BLOCK);
        if last < first {
            return least_of_places(&groups[i..end], &self.places[i..end], other_than);
        }
        let (begin, back) = (first * BLOCK, last * BLOCK);
        let before = least_of_places(&groups[i..begin], &self.places[i..begin], other_than);
        let behind = least_of_places(&groups[back..end], &self.places[back..end], other_than);
        let (low, high) = (self.blocks + first, self.blocks + last);
        let between = least_of_span(self.nodes.as_slice(), low, high, other_than);
        before.min(between).min(behind)
    }
}

// The least rank at some places, with their groups, whose group is not the given one, found by looking at each.
fn least_of_places(groups: &[i64], places: &[u32], other_than: Option<i64>) -> u32
    requires { length groups.now ≡ length places.now }
    ensures { (all : List ℤ) → ArePlaced all groups.now places.now → pair_of_rank result ≡ least_other_than other_than (entries_of (rank_entries all places.now)) }
{
    let mut least = NONE;
    for place in 0..places.len() {
        let rank = places[place];
        // Seldom below the least so far, so its group is seldom read.
        if rank < least {
            least = lesser_rank(least, rank, groups[place], other_than);
        }
    }
    least
}

// The lesser of a least rank and of another one with its group, which counts where that is not the given one.
fn lesser_rank(least: u32, rank: u32, group: i64, other_than: Option<i64>) -> u32
    requires { rank < least }
    ensures { pair_of_rank result ≡ lesser_counted least rank group other_than }
{
    least.min(RankNode::single(rank, group).least(other_than))
}

// The node of a block of places, with their groups.
fn node_of_block(groups: &[i64], places: &[u32], block: usize) -> RankNode
    requires all { length groups.now ≡ length places.now }
    requires block { 16 * block < length places.now }
    ensures packed { IsPacked result }
    ensures stands { (all : List ℤ) → ArePlaced all groups.now places.now → StandsFor (unpacked result) (block_at (rank_entries all places.now) block) }
{
    let first = block * BLOCK;
    let end = places.len().min(first + BLOCK);
    node_of_places(&groups[first..end], &places[first..end])
}

// The node of some places, with their groups.
fn node_of_places(groups: &[i64], places: &[u32]) -> RankNode
    requires { length groups.now ≡ length places.now }
    ensures packed { IsPacked result }
    ensures stands { (all : List ℤ) → ArePlaced all groups.now places.now → StandsFor (unpacked result) (rank_entries all places.now) }
{
    let mut node = RankNode::empty();
    for place in 0..places.len() {
        let rank = places[place];
        // Most places are empty.
        if rank != NONE {
            node = RankNode::joined(&node, &RankNode::single(rank, groups[place]));
        }
    }
    node
}

// Joins each node from this one up with a leaf that has come to stand below it.
fn join_up(nodes: &mut Vec<RankNode>, leaves: usize, mut at: usize, leaf: &RankNode)
    requires inside { at < leaves }
    requires packed { ArePacked nodes.old.items }
    requires leaf { IsPacked leaf.now }
    requires others { IsTreeBut at leaves (map unpacked nodes.old.items) }
    requires short { 0 < at → IsShortOf (unpacked leaf.now) (map unpacked nodes.old.items) at }
    ensures packed { ArePacked nodes.new.items }
    ensures tree { IsTree leaves (map unpacked nodes.new.items) }
    ensures leaves { drop leaves nodes.new.items ≡ drop leaves nodes.old.items }
{
    while at > 0 {
        let node = RankNode::joined(&nodes[at], leaf);
        // Where it is as it was, so are those above.
        if nodes[at].is_same(&node) {
            return;
        }
        nodes[at] = node;
        at /= 2;
    }
}

// Joins anew each node from this one up that keeps a rank that has left below it.
fn mend(nodes: &mut Vec<RankNode>, leaves: usize, mut at: usize, left: u32)
    requires inside { at < leaves }
    requires packed { ArePacked nodes.old.items }
    requires others { IsTreeBut at leaves (map unpacked nodes.old.items) }
    requires long { 0 < at → HasLeft left (map unpacked nodes.old.items) at }
    ensures packed { ArePacked nodes.new.items }
    ensures tree { IsTree leaves (map unpacked nodes.new.items) }
    ensures leaves { drop leaves nodes.new.items ≡ drop leaves nodes.old.items }
{
    while at > 0 {
        // A node that does not keep the rank stays as it is, and so do those above.
        if !nodes[at].keeps(left) {
            return;
        }
        nodes[at] = RankNode::joined(&nodes[2 * at], &nodes[2 * at + 1]);
        at /= 2;
    }
}

// The least rank below the nodes from `low` to before `high` whose group is not the given one. Nodes at the ends that
// have no fellow among them are taken alone, and the others by those above them.
fn least_of_span(
    nodes: &[RankNode],
    mut low: usize,
    mut high: usize,
    other_than: Option<i64>,
) -> u32
    requires packed { ArePacked nodes.now }
    requires tree { IsTree (length nodes.now / 2) (map unpacked nodes.now) }
    requires first { 0 < low }
    requires order { low ≤ high }
    requires last { high ≤ length nodes.now }
    ensures { pair_of_rank result ≡ least_of_nodes other_than (map unpacked nodes.now) low (high - low) }
{
    let mut least = NONE;
    while low < high {
        if low % 2 == 1 {
            least = least.min(nodes[low].least(other_than));
            low += 1;
        }
        if high % 2 == 1 {
            high -= 1;
            least = least.min(nodes[high].least(other_than));
        }
        low /= 2;
        high /= 2;
    }
    least
}
