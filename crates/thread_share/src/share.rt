//! How many neighbours of a list one thread takes, and how many threads rows are worth.
ghost use Rattle.std.specs.Prelude.{◌≡◌, ◌<◌, ◌/◌, max, min};
ghost use Rattle.std.specs.Int.{div_ceil};

/// How many neighbours of so many items one thread takes, where so many threads share them, which are one where they are 0,
/// and fewer than `least` are not worth a thread. It is at least 1, so that a list is cut into pieces of it.
pub fn share_of(items: usize, threads: usize, least: usize) -> usize
    ensures some { 0 < result }
    ensures value { result ≡ max (max (div_ceil items (max threads 1)) least) 1 }
{
    items.div_ceil(threads.max(1)).max(least).max(1)
}

/// As many threads as are asked for, but no more than one for so many rows each, which it has done by the time that others begin;
/// one at least.
pub fn threads_for(most: usize, rows: usize, rows_a_thread: usize) -> usize
    requires { 0 < rows_a_thread }
    ensures some { 0 < result }
    ensures value { result ≡ max (min most (rows / rows_a_thread)) 1 }
{
    most.min(rows / rows_a_thread).max(1)
}
