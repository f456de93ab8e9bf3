//! What a task tells.
use sgl_values::ItemFault;

/// How many items the task came to and the least fault among them, or that the items are past the limit.
#[derive(Clone, Copy, Debug, PartialEq, Eq)]
pub struct TaskDone {
    pub items: u64,
    pub over: bool,
    pub least: Option<ItemFault>,
}
