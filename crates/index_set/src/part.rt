//! Range indices on a shelf.

use group_boxes::Boxes;

/// Range indices over a partition, by its number.
#[derive(Debug, Drop)]
pub(crate) struct Part {
    pub(crate) groups: usize,
    pub(crate) boxes: Boxes,
}
