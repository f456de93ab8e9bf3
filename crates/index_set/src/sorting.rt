//! The rows of groups by rising value of an attribute.

use row_groups::SortedGroups;
use sgl_typed::Attr;

/// The rows of the groups of a partition, by its number, by rising value of an attribute and with their ranks by another.
#[derive(Debug, Drop)]
pub(crate) struct Sorting {
    pub(crate) groups: usize,
    pub(crate) axis: Option<Attr>,
    pub(crate) across: Option<Attr>,
    pub(crate) sorted: SortedGroups,
}
