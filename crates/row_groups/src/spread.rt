//! Work on each group, side by side.
ghost use Rattle.std.specs.Prelude.{ℕ, ◌<◌, IfOk, Ok};
ghost use Rattle.row_groups.specs.Made.{AreMade};

use crate::means::Means;
use rayon::prelude::*;
use sgl_values::Memory;
use std::thread::Threads;
use thread_share::share_of;

/// What is made for each of so many groups, in their order. Threads share the groups. `Memory` comes where `make` tells it
/// for a group, or where there is none for the list.
pub fn each_group<R, T, F>(means: &Means<R>, groups: u32, make: F) -> Result<Vec<T>, Memory>
where
    R: Threads + Sync,
    T: Send + Drop,
    F: Fn(u32) -> Result<T, Memory> + Copy + Send + Sync,
    requires { (group : ℕ) → group < groups → F.pre make group }
    ensures { IfOk result (λ made. AreMade (λ group one. F.post make group (Ok one)) groups made.items) }
{
    let Means { rt, threads, alloc } = *means;
    let made: Result<Vec<T>, Memory> = (0..groups)
        .into_par_iter()
        .with_min_len(share_of(groups as usize, threads, 1))
        .map(make)
        .collect(rt, alloc)?;
    made
}
