//! Numbers, places and lists of one item, and how they are shown.
ghost use Rattle.std.specs.Prelude.{◌≡◌, ◌∷◌, [], IfOk};

use sgl_values::{BinOp, List, Memory, Num, Place};
use std::alloc::Global;

/// The number with this value: each of these is in range, so that a test asks for no more than it.
pub fn small(value: i32) -> Num {
    let number = Num::whole(value.unsigned_abs());
    if value < 0 { number.negated() } else { number }
}

/// The number with this value; a test that asks for one out of range fails.
pub fn number(value: i64) -> Result<Num, &'static str> {
    Num::new(value).ok_or("out of range")
}

/// A place in the first line.
pub fn at(col: u32) -> Place
    ensures { result ≡ record { line = 1; col = col } }
{
    Place { line: 1, col }
}

/// A list of this item alone.
pub fn one<T: Drop>(alloc: Global, item: T) -> Result<List<T>, Memory>
    ensures { IfOk result (λ list. list ≡ item ∷ []) }
{
    let mut list = List::new(alloc);
    list.push(item)?;
    Ok(list)
}

/// A place as its line and its column.
pub fn shown_place(alloc: Global, place: Place) -> Result<String, Memory> {
    Ok(format!(in alloc; "{}:{}", place.line, place.col)?)
}

/// An operation in brackets, with the place of its operator.
pub fn shown_operation(
    alloc: Global,
    left: &str,
    op: BinOp,
    place: Place,
    right: &str,
) -> Result<String, Memory> {
    Ok(format!(in alloc; "({left} {op:?}@{} {right})", shown_place(alloc, place)?)?)
}
