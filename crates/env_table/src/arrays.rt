//! The flat arrays of keys and values in which worlds and their builders keep rows.
ghost use Rattle.std.specs.Prelude.{◌≡◌, ◌≢◌, ◌+◌, ◌*◌, ◌<◌, ◌≤◌, ℕ, ℤ, pos, [], slice_index_or, unsigned_abs, vec_len, vec_capacity, All, length, OnOk, OnErr};

use sgl_values::{CONSTS_MAX, Memory, Num};

/// The rows of a table, laid out flat: row number r has the key `keys[r]` and the values of which the first stands at
/// `values[r * width]`. No key is above `last_key`.
#[derive(Debug, Drop)]
pub(crate) struct Arrays {
    pub(crate) tick: u16,
    pub(crate) width: u32,
    pub(crate) last_key: u32,
    pub(crate) keys: Vec<u32>,
    pub(crate) values: Vec<Num>,
}

impl Arrays {
    ghost use Rattle.env_table.specs.Arrays.{SameRows, AddsLanes, AddsRow, AddsRows, NoLessRoom, HasRoomForRow};

    /// Makes room for one more row, and takes memory only where there is none. It changes no row.
    pub(crate) fn reserve_row(&mut self) -> Result<(), Memory>
        ensures same { SameRows self.old self.new }
        ensures no_less { NoLessRoom self.old self.new }
        ensures ok { OnOk result (HasRoomForRow self.new) }
        ensures err { OnErr result (HasRoomForRow self.old → ⊥) }
    {
        let width = self.width as usize;
        self.keys.reserve(1)?;
        self.values.reserve(width)?;
        Ok(())
    }

    /// Puts a row behind the last, which gives the last key. There is room for it.
    pub(crate) fn put_row(&mut self, key: u32, vals: &[Num])
        requires width { length vals.now ≡ self.old.width }
        requires room { HasRoomForRow self.old }
        ensures added { AddsRow self.old self.new key vals.now }
        ensures no_less { NoLessRoom self.old self.new }
    {
        tell_range(vals);
        self.last_key = key;
        // Neither is refused, as there is room.
        let _ = self.keys.push(key);
        let _ = self.values.extend_from_slice(vals);
    }

    /// Puts the rows of others of the same width behind the last, and takes their last key. There is room for them.
    pub(crate) fn put_rows(&mut self, more: &Arrays)
        requires keys { vec_len self.old.keys + length more.now.keys.items ≤ vec_capacity self.old.keys }
        requires values { vec_len self.old.values + length more.now.values.items ≤ vec_capacity self.old.values }
        ensures added { AddsRows self.old self.new more.now }
        ensures no_less { NoLessRoom self.old self.new }
    {
        self.last_key = more.last_key;
        // Neither is refused, as there is room.
        let _ = self.keys.extend_from_slice(more.keys.as_slice());
        let _ = self.values.extend_from_slice(more.values.as_slice());
    }

    /// Puts rows with these keys, one at least, behind the last. The numbers of each stand in a lane of all columns, from a first
    /// lane on. There is room for them.
    pub(crate) fn put_lanes(&mut self, keys: &[u32], lane: usize, columns: &[[Num; 64]])
        requires some { 0 < length keys.now }
        requires lanes { lane + length keys.now ≤ 64 }
        requires narrow { self.old.width ≤ CONSTS_MAX }
        requires width { length columns.now ≡ self.old.width }
        requires keys { vec_len self.old.keys + length keys.now ≤ vec_capacity self.old.keys }
        requires values { vec_len self.old.values + length keys.now * self.old.width ≤ vec_capacity self.old.values }
        ensures added { AddsLanes self.old self.new keys.now lane columns.now }
        ensures no_less { NoLessRoom self.old self.new }
    {
        let width = self.width as usize;
        let from = self.values.len();
        let count = keys.len();
        self.last_key = keys[count - 1];
        // Neither is refused, as there is room.
        let _ = self.keys.extend_from_slice(keys);
        let _ = self.values.resize(from + count * width, Num::zero());
        put_rows_of(self.values.as_mut_slice(), from, count, lane, columns);
        tell_range(self.values.as_slice());
    }
}

/// Tells of all numbers what the type of each keeps: that it is in its range. It changes nothing.
fn tell_range(vals: &[Num])
    ensures { All (λ z. unsigned_abs z ≤ 1000000000000) vals.now }
{
    for value in vals {
        let _ = value.get();
    }
}

/// Puts the number at a place, and each one that stands the width behind the one before, into a list. Four at once, so that the
/// compiler writes no loop around each.
pub(crate) fn take_each(values: &[Num], from: usize, width: usize, out: &mut [Num])
    requires narrow { width ≤ CONSTS_MAX }
    requires inside { (k : ℕ) → k < length out.old → from + k * width < length values.now }
    ensures length { length out.new ≡ length out.old }
    ensures put { (k : ℕ) (d : ℤ) → k < length out.old → slice_index_or out.new k d ≡ slice_index_or values.now (from + k * width) d }
{
    let count = out.len();
    let groups = count / 4;
    for group in 0..groups {
        let place = group * 4;
        take_some(values, from + place * width, width, 4, place, out);
    }
    let place = groups * 4;
    if place < count {
        take_some(
            values,
            from + place * width,
            width,
            count - place,
            place,
            out,
        );
    }
}

// The same for so many places of the list, from one on.
#[inline(always)]
fn take_some(values: &[Num], from: usize, width: usize, count: usize, place: usize, out: &mut [Num])
    requires narrow { width ≤ CONSTS_MAX }
    requires room { place + count ≤ length out.old }
    requires inside { (k : ℕ) → k < count → from + k * width < length values.now }
    ensures length { length out.new ≡ length out.old }
    ensures put { (k : ℕ) (d : ℤ) → k < count → slice_index_or out.new (place + k) d ≡ slice_index_or values.now (from + k * width) d }
    ensures before { (i : ℕ) (d : ℤ) → i < place → slice_index_or out.new i d ≡ slice_index_or out.old i d }
{
    let mut at = from;
    for step in 0..count {
        out[place + step] = values[at];
        at += width;
    }
}

// Writes so many rows, one behind the other from a place on: the numbers of each stand in a lane of all columns, from a first
// lane on.
fn put_rows_of(values: &mut [Num], from: usize, count: usize, lane: usize, columns: &[[Num; 64]])
    requires narrow { length columns.now ≤ CONSTS_MAX }
    requires lanes { lane + count ≤ 64 }
    requires inside { from + count * length columns.now ≤ length values.old }
    ensures length { length values.new ≡ length values.old }
    ensures before { (i : ℕ) (d : ℤ) → i < from → slice_index_or values.new i d ≡ slice_index_or values.old i d }
    ensures put { (k a : ℕ) (d : ℤ) → k < count → a < length columns.now
        → slice_index_or values.new (from + (k * length columns.now + a)) d ≡ slice_index_or (slice_index_or columns.now a []) (lane + k) (pos 0) }
{
    let width = columns.len();
    for attr in 0..width {
        put_each(values, from + attr, width, count, lane, &columns[attr]);
    }
}

// Writes so many numbers of a column, from a lane on, to a place and to those that stand the width behind the one before. Four at
// once, so that the compiler writes no loop around each.
fn put_each(
    values: &mut [Num],
    from: usize,
    width: usize,
    count: usize,
    lane: usize,
    column: &[Num; 64],
)
    requires narrow { (0 < width) × (width ≤ CONSTS_MAX) }
    requires lanes { lane + count ≤ 64 }
    requires inside { (k : ℕ) → k < count → from + k * width < length values.old }
    ensures length { length values.new ≡ length values.old }
    ensures put { (k : ℕ) (d : ℤ) → k < count → slice_index_or values.new (from + k * width) d ≡ slice_index_or column.now (lane + k) (pos 0) }
    ensures other { (i : ℕ) (d : ℤ) → ((k : ℕ) → k < count → i ≢ from + k * width) → slice_index_or values.new i d ≡ slice_index_or values.old i d }
{
    let groups = count / 4;
    for group in 0..groups {
        let place = group * 4;
        put_some(values, from + place * width, width, 4, lane + place, column);
    }
    let place = groups * 4;
    if place < count {
        put_some(
            values,
            from + place * width,
            width,
            count - place,
            lane + place,
            column,
        );
    }
}

// The same, one after the other.
#[inline(always)]
fn put_some(
    values: &mut [Num],
    from: usize,
    width: usize,
    count: usize,
    lane: usize,
    column: &[Num; 64],
)
    requires narrow { (0 < width) × (width ≤ CONSTS_MAX) }
    requires lanes { lane + count ≤ 64 }
    requires inside { (k : ℕ) → k < count → from + k * width < length values.old }
    ensures length { length values.new ≡ length values.old }
    ensures put { (k : ℕ) (d : ℤ) → k < count → slice_index_or values.new (from + k * width) d ≡ slice_index_or column.now (lane + k) (pos 0) }
    ensures other { (i : ℕ) (d : ℤ) → ((k : ℕ) → k < count → i ≢ from + k * width) → slice_index_or values.new i d ≡ slice_index_or values.old i d }
{
    let mut at = from;
    for place in 0..count {
        values[at] = column[lane + place];
        at += width;
    }
}
