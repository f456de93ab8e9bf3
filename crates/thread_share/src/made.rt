//! What is made for numbers, by threads that one thread starts.
ghost use Rattle.std.specs.Prelude.{◌≡◌, ℕ, ◌+◌, ◌<◌, ◌≤◌, length, slice_index_or, IfOk, Ok};
ghost use denote.Param.Send.{IsSend, IsSync};

use sgl_values::Memory;
use std::alloc::Global;
use std::thread::{Threads, join};

/// What is made for each of the first numbers, so many, in their order: each in a thread of its own, all of which the
/// calling thread starts, as `for_each_mut` does with few; what is made for the first it makes itself. So it is for few
/// numbers. `Memory` comes where `make` tells it for a number, or where there is none for the list.
pub fn make_each<R: Threads + Sync, T: Send + Drop, F: Fn(usize) -> Result<T, Memory> + Sync>(
    rt: &R,
    alloc: Global,
    count: usize,
    make: &F,
) -> Result<Vec<T>, Memory>
    requires { (number : ℕ) → number < count → F.pre make.now number }
    ensures count { IfOk result (λ all. length all.items ≡ count) }
    ensures each { IfOk result (λ all. (number : ℕ) (d : T) → number < count → F.post make.now number (Ok (slice_index_or all.items number d))) }
{
    if count == 0 {
        return Ok(Vec::new(alloc));
    }
    make_to(rt, alloc, count - 1, make)
}

// The same of the numbers to the last one.
#[cycle(made)]
fn make_to<R: Threads + Sync, T: Send + Drop, F: Fn(usize) -> Result<T, Memory> + Sync>(
    rt: &R,
    alloc: Global,
    last: usize,
    make: &F,
) -> Result<Vec<T>, Memory>
    requires { (number : ℕ) → number ≤ last → F.pre make.now number }
    ensures count { IfOk result (λ all. length all.items ≡ last + 1) }
    ensures each { IfOk result (λ all. (number : ℕ) (d : T) → number ≤ last → F.post make.now number (Ok (slice_index_or all.items number d))) }
{
    if last == 0 {
        let mut all = Vec::new(alloc);
        all.push(make(0)?)?;
        return Ok(all);
    }
    let before = last - 1;
    let (one, all) = join(
        rt,
        || -> Result<T, Memory>
            requires { F.pre make.now last }
            ensures { F.post make.entry.now last result }
        { make(last) },
        || -> Result<Vec<T>, Memory>
            requires { IsSync R.row × IsSync F.row × IsSend T.row × ((number : ℕ) → number ≤ before → F.pre make.now number) }
            ensures count { IfOk result (λ all. length all.items ≡ before + 1) }
            ensures each { IfOk result (λ all. (number : ℕ) (d : T) → number ≤ before → F.post make.entry.now number (Ok (slice_index_or all.items number d))) }
        { make_to(rt, alloc, before, make) },
    );
    let mut all = all?;
    all.push(one?)?;
    Ok(all)
}
