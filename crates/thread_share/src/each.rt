//! Calls at the elements of a list, by threads that one thread starts.
ghost use Rattle.std.specs.Prelude.{◌≡◌, ℕ, ◌+◌, ◌^◌, ◌<◌, length};
ghost use Rattle.std.specs.Fork.{AcceptsAt, AcceptsEach, ChangesAt, ChangesEach};
ghost use Rattle.thread_share.specs.Each.{AcceptsFrom, ChangesFrom};
ghost use denote.Param.Send.{IsSend, IsSync};

use crate::share::share_of;
use std::thread::{self, Threads, join_mut};

// One thread starts so many others at most. The starts of more would take longer than the work of the first.
const STARTS_MAX: usize = 7;

/// Calls f(i, &mut s[i]) at each place, in at most `threads` threads, as the standard library's function of this name does.
/// There a new thread starts half of those that are still to come. A system that takes a processor for idle on which a
/// thread has just begun puts a thread that this one starts beside it, where it waits while other processors are free. Here
/// the calling thread starts all others, and calls at the last places itself, unless they are more than 8.
pub fn for_each_mut<R: Threads + Sync, T: Send, F: Fn(usize, &mut T) + Sync>(
    rt: &R,
    s: &mut [T],
    threads: usize,
    f: &F,
)
    requires threads { 0 < threads }
    requires accepts { AcceptsEach F.Fn f.now s.old }
    ensures { ChangesEach F.Fn f.now s.old s.new }
{
    if threads > STARTS_MAX + 1 {
        thread::for_each_mut(rt, s, threads, f);
    } else {
        each_from(rt, f, 0, share_of(s.len(), threads, 1), s);
    }
}

// Calls at the elements of a list that stand behind so many others, with a thread for each `size` of them but the last.
#[cycle(shares)]
fn each_from<R: Threads + Sync, T: Send, F: Fn(usize, &mut T) + Sync>(
    rt: &R,
    f: &F,
    base: usize,
    size: usize,
    s: &mut [T],
)
    requires size { 0 < size }
    requires room { base + length s.old < 2 ^ 64 }
    requires accepts { AcceptsFrom F.Fn f.now base s.old }
    ensures { ChangesFrom F.Fn f.now base s.old s.new }
{
    if s.len() <= size {
        in_turn(s, base, f);
        return;
    }
    let (first, rest) = s.split_at_mut(size);
    both_parts(rt, f, base, first, base + size, size, rest);
}

// The first part in a new thread, and the rest in this one and in those that it starts. Apart, so that what the closures
// require is what this function is given.
#[cycle(shares)]
fn both_parts<R: Threads + Sync, T: Send, F: Fn(usize, &mut T) + Sync>(
    rt: &R,
    f: &F,
    base: usize,
    first: &mut [T],
    up: usize,
    size: usize,
    rest: &mut [T],
)
    requires size { 0 < size }
    requires room { base + length first.old < 2 ^ 64 }
    requires rest_room { up + length rest.old < 2 ^ 64 }
    requires first { AcceptsFrom F.Fn f.now base first.old }
    requires rest { AcceptsFrom F.Fn f.now up rest.old }
    ensures first { ChangesFrom F.Fn f.now base first.old first.new }
    ensures rest { ChangesFrom F.Fn f.now up rest.old rest.new }
{
    let mut front = ||
        requires { (base + length first.now < 2 ^ 64) × AcceptsFrom F.Fn f.now base first.now }
        ensures { ChangesFrom F.Fn f.entry.now base first.entry.now first.exit.now }
    { in_turn(first, base, f) };
    let mut back = ||
        requires { IsSync R.row × IsSync F.row × IsSend T.row × (0 < size) × (up + length rest.now < 2 ^ 64) × AcceptsFrom F.Fn f.now up rest.now }
        ensures { ChangesFrom F.Fn f.entry.now up rest.entry.now rest.exit.now }
    { each_from(rt, f, up, size, rest) };
    join_mut(rt, &mut front, &mut back);
}

// Calls at the elements of a list one after the other.
fn in_turn<T, F: Fn(usize, &mut T)>(s: &mut [T], base: usize, f: &F)
    requires room { base + length s.old < 2 ^ 64 }
    requires accepts { AcceptsFrom F.Fn f.now base s.old }
    ensures { ChangesFrom F.Fn f.now base s.old s.new }
{
    for k in 0..s.len() {
        at_one(f, base + k, &mut s[k]);
    }
}

fn at_one<T, F: Fn(usize, &mut T)>(f: &F, i: usize, it: &mut T)
    requires { AcceptsAt F.Fn f.now i it.old }
    ensures { ChangesAt F.Fn f.now i it.old it.new }
{
    f(i, it);
}
