//! Summaries of items, put together.
ghost use Rattle.std.specs.Prelude.{◌≡◌, ◌≤◌};
ghost use Rattle.task_board.specs.Summing.{both_of, counted, told_of};

use crate::summary::Summary;
use sgl_values::{ITEMS_MAX, ItemFault, lesser};
use task_scratch::TaskDone;

/// The summary of the items of both.
pub fn both(limit: u64, a: Summary, b: Summary) -> Summary
    requires { limit ≤ ITEMS_MAX }
    ensures { result ≡ both_of limit a b }
{
    match a {
        Summary::Over => Summary::Over,
        Summary::Counted { items, least } => match b {
            Summary::Over => Summary::Over,
            Summary::Counted {
                items: more,
                least: other,
            } => counted(limit, items.saturating_add(more), lesser(least, other)),
        },
    }
}

/// The summary of so many items.
fn counted(limit: u64, items: u64, least: Option<ItemFault>) -> Summary
    ensures { result ≡ counted limit items least }
{
    if items > limit {
        Summary::Over
    } else {
        Summary::Counted { items, least }
    }
}

/// The summary of a task.
pub fn told_of(done: TaskDone) -> Summary
    ensures { result ≡ told_of done }
{
    if done.over {
        Summary::Over
    } else {
        Summary::Counted {
            items: done.items,
            least: done.least,
        }
    }
}
