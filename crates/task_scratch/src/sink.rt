//! Where the items of tasks go.
ghost use Rattle.std.specs.Prelude.{◌≡◌, [], IfOk};

use effect_combine::Batch;
use sgl_values::{ItemFault, List, Memory, Tag};
use std::alloc::Global;

/// The cells that are not given yet and the number of items, and of the task that runs whether it passed the limit, and
/// the least fault.
#[derive(Drop)]
pub struct Sink {
    pub batch: Batch,
    pub items: u64,
    pub over: bool,
    pub least: Option<ItemFault>,
}

impl Sink {
    /// No cells and no items, for effect attributes of these tags. `Memory` is its only refusal.
    pub(crate) fn new(alloc: Global, tags: &List<Tag>) -> Result<Sink, Memory>
        ensures tagged { IfOk result (λ sink. sink.batch.tags ≡ tags.now) }
        ensures empty { IfOk result (λ sink. sink.batch.cells ≡ []) }
        ensures items { IfOk result (λ sink. sink.items ≡ 0) }
    {
        Ok(Sink {
            batch: Batch::new(alloc, tags)?,
            items: 0,
            over: false,
            least: None,
        })
    }
}
