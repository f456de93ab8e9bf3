//! The faults of rows, kept beside what was found.
ghost use Rattle.std.specs.Prelude.{◌≡◌, ◌≤◌, ◌↔◌, All, IsTrue, None, true, length, IfOk};
ghost use Rattle.group_sweeps.specs.Faults.{ArePut, HasNone};

use crate::ask::{Ask, MOVES_A_THREAD};
use crate::found::Found;
use rayon::prelude::*;
use row_groups::Means;
use sgl_values::{Fault, Memory, ROWS_MAX};
use std::alloc::Global;
use std::thread::Threads;
use thread_share::share_of;

/// Puts the faults of rows in the place of what was found, and keeps them in a list. Most often there are none, which threads
/// find sooner than one.
pub(crate) fn put_faults<R: Threads + Sync>(
    means: &Means<R>,
    asks: &[Ask],
    found: &mut [Found],
) -> Result<Vec<Fault>, Memory>
    requires few { length asks.now ≤ ROWS_MAX }
    requires found { length found.old ≡ length asks.now }
    ensures { IfOk result (λ faults. ArePut asks.now (length asks.now) faults.items found.old found.new) }
{
    if are_without_fault(means, asks) {
        return Ok(Vec::new(means.alloc));
    }
    put_each_fault(means.alloc, asks, found)
}

// Whether no row has a fault, looked for by threads.
fn are_without_fault<R: Threads + Sync>(means: &Means<R>, asks: &[Ask]) -> bool
    ensures { result ≡ true → HasNone asks.now }
{
    let size = share_of(asks.len(), means.threads, MOVES_A_THREAD);
    asks.par_chunks(size).with_min_len(1).all(
        means.rt,
        |asks: &[Ask]| -> bool
            ensures { IsTrue result ↔ HasNone asks.now }
        { is_without_fault(asks) },
    )
}

// Whether none of these rows has a fault.
fn is_without_fault(asks: &[Ask]) -> bool
    ensures { IsTrue result ↔ HasNone asks.now }
{
    asks.iter().all(|ask| ask.fault.is_none())
}

// Puts the faults in their places one by one.
fn put_each_fault(alloc: Global, asks: &[Ask], found: &mut [Found]) -> Result<Vec<Fault>, Memory>
    requires few { length asks.now ≤ ROWS_MAX }
    requires found { length found.old ≡ length asks.now }
    ensures { IfOk result (λ faults. ArePut asks.now (length asks.now) faults.items found.old found.new) }
{
    let mut faults = Vec::new(alloc);
    for row in 0..asks.len() {
        if let Some(fault) = asks[row].fault {
            found[row] = Found::Fault(faults.len() as u16);
            faults.push(fault)?;
        }
    }
    Ok(faults)
}
