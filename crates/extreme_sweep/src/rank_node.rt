//! The nodes of a tree of ranks.
ghost use Rattle.std.specs.Prelude.{◌≡◌, ◌<◌, ◌≤◌, pos, Some};
ghost use Rattle.std.specs.Bool.{OnTrue};
ghost use Rattle.extreme_sweep.specs.Nodes.{leaf_of};
ghost use Rattle.extreme_sweep.specs.Ranks.{keeps_rank, no_rank, ranked, rank_below, unpacked, IsPacked, JoinsRanks};

/// In the place of a rank: there is none.
pub(crate) const NONE: u32 = u32::MAX;

/// What a node of the tree keeps of the ranks below it: the least, its group, and the least of another group than that
/// one. Each is `NONE` where there is none.
#[derive(Clone, Copy, Debug)]
pub(crate) struct RankNode {
    first: u32,
    second: u32,
    group: i64,
}

impl RankNode {
    /// The node of no rank.
    pub(crate) fn empty() -> RankNode
        ensures { result ≡ record { first = 4294967295; second = 4294967295; group = pos 0 } }
    {
        RankNode {
            first: NONE,
            second: NONE,
            group: 0,
        }
    }

    /// The node of a single rank with its group.
    pub(crate) fn single(rank: u32, group: i64) -> RankNode
        requires { rank < no_rank }
        ensures packed { IsPacked result }
        ensures leaf { unpacked result ≡ leaf_of (Some (ranked group rank)) }
    {
        RankNode {
            first: rank,
            second: NONE,
            group,
        }
    }

    /// The least rank below the node whose group is not the given one.
    pub(crate) fn least(&self, other_than: Option<i64>) -> u32
        ensures { result ≡ rank_below other_than self.now }
    {
        match other_than {
            None => self.first,
            Some(group) => {
                if self.group == group {
                    self.second
                } else {
                    self.first
                }
            }
        }
    }

    /// The node of what stands below two nodes.
    pub(crate) fn joined(left: &RankNode, right: &RankNode) -> RankNode
        requires left { IsPacked left.now }
        requires right { IsPacked right.now }
        ensures packed { IsPacked result }
        ensures joins { JoinsRanks left.now right.now result }
    {
        if left.first <= right.first {
            RankNode::led(left, right)
        } else {
            RankNode::led(right, left)
        }
    }

    // The node of what stands below two nodes, of which the first has the least rank.
    fn led(leading: &RankNode, other: &RankNode) -> RankNode
        requires leading { IsPacked leading.now }
        requires other { IsPacked other.now }
        requires order { leading.now.first ≤ other.now.first }
        ensures packed { IsPacked result }
        ensures joins { JoinsRanks leading.now other.now result }
    {
        let second = leading.second.min(other.least(Some(leading.group)));
        RankNode {
            first: leading.first,
            second,
            group: leading.group,
        }
    }

    /// Whether the node keeps a rank.
    pub(crate) fn keeps(&self, rank: u32) -> bool
        ensures { result ≡ keeps_rank self.now rank }
    {
        self.first == rank || self.second == rank
    }

    /// Whether two nodes are the same. Only a `true` is promised to be right.
    pub(crate) fn is_same(&self, other: &RankNode) -> bool
        ensures { OnTrue result (self.now ≡ other.now) }
    {
        self.first == other.first && self.second == other.second && self.group == other.group
    }
}
