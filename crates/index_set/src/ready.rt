//! What extremes are swept from.

use crate::prepared::PreparedUse;
use crate::shelf::Shelf;
use crate::source::Source;
use sgl_values::List;

/// What indices are made of, the uses of extremes that are ready to be swept, and the shelf with their partitions.
#[derive(Clone, Copy)]
pub(crate) struct Ready<'a> {
    pub(crate) of: &'a Source<'a>,
    pub(crate) shelf: &'a Shelf,
    pub(crate) uses: &'a List<PreparedUse>,
}
