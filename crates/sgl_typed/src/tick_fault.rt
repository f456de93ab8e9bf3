//! Why a tick is refused.
use sgl_values::Fault;

/// Why a tick gives no next world. Of the causes that apply the first in this order is the answer; want of memory may
/// come in place of any of them.
#[derive(Clone, Copy, Debug, PartialEq, Eq)]
pub enum TickFault {
    /// The tick has more items than this limit.
    Items { limit: u64 },
    /// The least fault of an item, by the key of the unit, the place and the target.
    Script { key: u32, fault: Fault },
    /// The first cell outside the range of values, by the key of the row and the number of the effect attribute.
    Cell { key: u32, attr: u32 },
    /// The least fault of `post`, by the key of the row and the place.
    Post { key: u32, fault: Fault },
    /// The children have no keys: the last key and the number of children are together above the greatest key.
    KeysSpent { last: u32, children: u32 },
    /// The rows that stay and the children are so many, and more than 65,536.
    UnitsFull { units: u32 },
    /// Want of memory.
    Memory,
}
