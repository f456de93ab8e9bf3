//! Why there is no next world.
use sgl_values::Fault;

/// Why there is no next world. Of the causes that apply the first in this order is the answer.
#[derive(Clone, Copy, Debug, PartialEq, Eq)]
pub enum PostFault {
    /// The first cell outside the range of values, by the key of its row and the number of its effect attribute.
    Cell { key: u32, attr: u32 },
    /// The least fault of `post`, by the key of its row and the place.
    Script { key: u32, fault: Fault },
    /// The children have no keys: the last key and the number of children are together above the greatest key.
    KeysSpent { last: u32, children: u32 },
    /// The rows that stay and the children are so many, and more than 65,536.
    UnitsFull { units: u32 },
}
