//! The windows that are swept, in the order in which they are.
ghost use Rattle.std.specs.Prelude.{◌≤◌, length, IfOk};
ghost use Rattle.extreme_sweep.specs.Answers.{AreAsked, AreTurns};

use crate::window::Window;
use rank_table::{elements_at, order_of};
use sgl_values::{Memory, ROWS_MAX};
use std::alloc::Global;

/// So many widths are swept.
const WIDTHS_SWEPT: u32 = 16;

// The numbers of the windows that a point can be in, the left ends of these, number by number, and whether all are as wide.
#[derive(Debug, Drop)]
pub(crate) struct Asked {
    numbers: Vec<u32>,
    lefts: Vec<i64>,
    alike: bool,
}

/// The numbers of the windows that are swept, in the order of the sweep: those of the 16 least widths, without those that
/// no point can be in. They go by their width, x2 - x1, and those of one width from left to right.
pub(crate) fn turns_of(alloc: Global, windows: &[Window]) -> Result<Vec<u32>, Memory>
    requires { length windows.now ≤ ROWS_MAX }
    ensures { IfOk result (λ turns. AreTurns windows.now turns.items) }
{
    let asked = asked_of(alloc, windows)?;
    let order = order_of(alloc, asked.lefts.as_slice())?;
    let mut turns = elements_at(alloc, asked.numbers.as_slice(), order.as_slice())?;
    // Where all are as wide, the order stands already.
    if !asked.alike {
        turns.sort_unstable_by_key(|turn| width_and_left(windows, *turn));
        turns.truncate(end_of_widths(windows, turns.as_slice(), WIDTHS_SWEPT));
    }
    Ok(turns)
}

// The windows that a point can be in, in their order.
fn asked_of(alloc: Global, windows: &[Window]) -> Result<Asked, Memory>
    requires { length windows.now ≤ ROWS_MAX }
    ensures { IfOk result (AreAsked windows.now) }
{
    let mut numbers = Vec::with_capacity(alloc, windows.len())?;
    let mut lefts = Vec::with_capacity(alloc, windows.len())?;
    let mut width = None;
    let mut alike = true;
    for number in 0..windows.len() {
        let window = &windows[number];
        if !window.is_reversed() {
            numbers.push(number as u32)?;
            lefts.push(window.x1)?;
            let own = Some(window.width());
            alike &= width.is_none() || width == own;
            width = own;
        }
    }
    Ok(Asked {
        numbers,
        lefts,
        alike,
    })
}

// By what the window with this number goes: its width, and its left end.
fn width_and_left(windows: &[Window], number: u32) -> (u64, i64) {
    match windows.get(number as usize) {
        None => (0, 0),
        Some(window) => (window.width(), window.x1),
    }
}

// The number of the turns that come before so many widths are over.
fn end_of_widths(windows: &[Window], turns: &[u32], mut widths: u32) -> usize
    ensures { result ≤ length turns.now }
{
    for place in 1..turns.len() {
        let (width, _) = width_and_left(windows, turns[place]);
        let (before, _) = width_and_left(windows, turns[place - 1]);
        if width != before {
            if widths <= 1 {
                return place;
            }
            widths -= 1;
        }
    }
    turns.len()
}
