//! How many frames reach a node.
ghost use Rattle.std.specs.Prelude.{◌≡◌, ◌<◌, ◌≤◌, ◌+◌, length, slice_set};
ghost use Rattle.task_scratch.specs.Job.{capped};
ghost use Rattle.task_scratch.specs.Scratch.{reach_at};
ghost use Rattle.plan_executor.specs.Frames.{members};

use sgl_values::TASK_ROWS;

/// The number of rows of a set, at most 64.
pub(crate) fn count_rows(mask: u64) -> u64
    ensures value { result ≡ length (members mask) }
    ensures few { result ≤ TASK_ROWS }
{
    u64::from(mask.count_ones())
}

/// Adds the rows of a set to the count of a node.
pub(crate) fn add_reach(reach: &mut Vec<u64>, node: usize, mask: u64)
    requires { node < length reach.old.items }
    ensures { reach.new.items ≡ slice_set reach.old.items node (capped (reach_at reach.old.items node + length (members mask))) }
{
    reach[node] = reach[node].saturating_add(count_rows(mask));
}
