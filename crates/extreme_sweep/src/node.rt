//! The nodes of a tournament tree: the least entry, and the least of another group.
ghost use Rattle.std.specs.Prelude.{◌≡◌, ℤ, Option, Some, None, IfSome};
ghost use Rattle.std.specs.Bool.{OnFalse, OnTrue};
ghost use Rattle.extreme_sweep.specs.Nodes.{entry_below, least_below, lesser_entry, leaf_of, node_of, IsSound, Joins, Lacks};
ghost use Rattle.extreme_sweep.specs.Tree.{Replaces};

use crate::pair::{Entry, Pair};

/// What a node of the tree keeps of the entries below it.
#[derive(Clone, Copy, Debug)]
pub(crate) enum Node {
    /// There is none.
    Empty,
    /// The least, where all are of one group.
    Single(Entry),
    /// The least, and the least of another group than that one.
    Double(Entry, Entry),
}

impl Node {
    /// The node of a single place.
    pub(crate) fn leaf(entry: Option<Entry>) -> Node
        ensures { result ≡ leaf_of entry }
    {
        match entry {
            None => Node::Empty,
            Some(entry) => Node::Single(entry),
        }
    }

    /// The least pair below the node whose group is not the given one.
    pub(crate) fn least(&self, other_than: Option<i64>) -> Option<Pair>
        ensures { result ≡ least_below other_than self.now }
    {
        let entry = match other_than {
            None => self.first(),
            Some(group) => self.first_other_than(group),
        };
        match entry {
            None => None,
            Some(entry) => Some(entry.pair),
        }
    }

    /// The node of what stands below two nodes.
    pub(crate) fn joined(left: &Node, right: &Node) -> Node
        requires left { IsSound left.now }
        requires right { IsSound right.now }
        ensures sound { IsSound result }
        ensures joins { Joins left.now right.now result }
    {
        match lesser_entry(left.first(), right.first()) {
            None => Node::Empty,
            Some(first) => {
                let group = first.group;
                let second = lesser_entry(
                    left.first_other_than(group),
                    right.first_other_than(group),
                );
                Node::of(first, second)
            }
        }
    }

    /// The node when at one of the places that it stands for one entry is replaced by another, each of which may be none;
    /// `None` where it takes a look at the places to know.
    pub(crate) fn replaced(&self, left: Option<Entry>, entry: Option<Entry>) -> Option<Node>
        requires { IsSound self.now }
        ensures { IfSome result (Replaces self.now left entry) }
    {
        match left {
            None => match entry {
                None => Some(*self),
                Some(entry) => Some(Node::joined(self, &Node::Single(entry))),
            },
            Some(left) => {
                if entry.is_some() || self.has(&left.pair) {
                    None
                } else {
                    Some(*self)
                }
            }
        }
    }

    // Whether the node keeps an entry with this pair.
    fn has(&self, pair: &Pair) -> bool
        ensures { OnFalse result (Lacks self.now pair.now) }
    {
        match self {
            Node::Empty => false,
            Node::Single(first) => first.pair == *pair,
            Node::Double(first, second) => first.pair == *pair || second.pair == *pair,
        }
    }

    /// Whether two nodes are the same. Only a `true` is promised to be right.
    pub(crate) fn is_same(&self, other: &Node) -> bool
        ensures { OnTrue result (self.now ≡ other.now) }
    {
        match (self, other) {
            (Node::Empty, Node::Empty) => true,
            (Node::Single(ours), Node::Single(theirs)) => is_same_entry(ours, theirs),
            (Node::Double(first, second), Node::Double(theirs, next)) => {
                is_same_entry(first, theirs) && is_same_entry(second, next)
            }
            _ => false,
        }
    }

    // The node with this least entry, and this least one of another group.
    fn of(first: Entry, second: Option<Entry>) -> Node
        ensures { result ≡ node_of first second }
    {
        match second {
            None => Node::Single(first),
            Some(second) => Node::Double(first, second),
        }
    }

    // The least entry below the node.
    fn first(&self) -> Option<Entry>
        ensures { result ≡ entry_below None self.now }
    {
        match self {
            Node::Empty => None,
            Node::Single(first) => Some(*first),
            Node::Double(first, _) => Some(*first),
        }
    }

    // The least entry below the node whose group is not this one.
    fn first_other_than(&self, group: i64) -> Option<Entry>
        ensures { result ≡ entry_below (Some group) self.now }
    {
        match self {
            Node::Empty => None,
            Node::Single(first) => {
                if first.group == group {
                    None
                } else {
                    Some(*first)
                }
            }
            Node::Double(first, second) => Some(if first.group == group {
                *second
            } else {
                *first
            }),
        }
    }
}

// The entry with the lesser pair of two that may be there, and of equals the first.
fn lesser_entry(a: Option<Entry>, b: Option<Entry>) -> Option<Entry>
    ensures { result ≡ lesser_entry a b }
{
    match (a, b) {
        (Some(x), Some(y)) => Some(if x.pair > y.pair { y } else { x }),
        (None, b) => b,
        (a, None) => a,
    }
}

// Whether two entries are the same. Only a `true` is promised to be right.
fn is_same_entry(a: &Entry, b: &Entry) -> bool
    ensures { OnTrue result (a.now ≡ b.now) }
{
    a == b
}
