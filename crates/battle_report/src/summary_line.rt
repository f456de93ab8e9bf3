//! The line of a world in place of its rows.
ghost use Rattle.std.specs.Prelude.{◌≡◌, ◌+◌, ◌≤◌, ◌+ℤ◌, ◌∷◌, ◌++◌, ◌<◌, pos, All, EachIndex, length, slice_index_or, unsigned_abs};
ghost use Rattle.std.specs.Fmt.{signed_decimal};
ghost use Rattle.sgl_outside.specs.Sinks.{Writes};
ghost use Rattle.sgl_values.specs.World.{row_at};
ghost use Rattle.sgl_typed.specs.Aggregate.{sum_of};
ghost use Rattle.sgl_typed.specs.declared.script.Attr.TheVariants.{Const};
ghost use Rattle.battle_report.specs.RunLines.{summary_line, units_text};

use crate::line::two_numbers;
use env_table::World;
use sgl_outside::{Failed, Sink, put};
use sgl_values::{CONSTS_MAX, Num};
use unit_csv::{Line, push_signed_behind};

/// Writes the summary of a world: its tick, the number of its units, and the exact sum of each const attribute over all of
/// them, which is 0 where there are none. It takes no memory. Where the sink fails, a prefix of the line was written.
pub fn write_summary<S: Sink>(world: &World, out: &mut S) -> Result<(), Failed>
    ensures { Writes (S.written out.old) (S.written out.new) (S.faults out.old) (S.faults out.new) result (summary_line world.now) }
{
    let line = summary_line(world);
    put(out, &line)
}

fn summary_line(world: &World) -> Line
    ensures { result.items ≡ summary_line world.now }
{
    let mut sums = [0; CONSTS_MAX];
    let sums = &mut sums[..world.width() as usize];
    put_sums(world, sums);
    let mut line = units_line(world);
    for sum in sums.iter() {
        push_signed_behind(&mut line, b' ', *sum);
    }
    line.push(b'\n');
    line
}

// The line up to the sums.
fn units_line(world: &World) -> Line
    ensures text { result.items ≡ units_text world.now.world }
    ensures length { length result.items ≤ 400 }
{
    two_numbers(
        b"tick ",
        u64::from(world.tick()),
        b" units ",
        u64::from(world.len()),
        b" sums",
    )
}

// Puts the exact sum of each attribute over all rows, which 65,536 values keep below 2^63, into a
// buffer of their number. The values of a row stand side by side, so each row is read once.
fn put_sums(world: &World, sums: &mut [i64])
    requires { length sums.old ≡ world.now.width }
    ensures { EachIndex sums.new (λ attr. slice_index_or sums.new attr (pos 0) ≡ sum_of (Const attr) world.now.world.rows) }
{
    sums.fill(0);
    for row in 0..world.len() {
        add_row(world, row, sums);
    }
}

// Adds the values of a row to the sums, one by one.
fn add_row(world: &World, row: u32, sums: &mut [i64])
    requires row { row < length world.now.world.rows }
    requires length { length sums.old ≡ world.now.width }
    requires room { All (λ sum. unsigned_abs sum ≤ 65536000000000000) sums.old }
    ensures { EachIndex sums.old (λ attr. slice_index_or sums.new attr (pos 0) ≡ slice_index_or sums.old attr (pos 0) +ℤ slice_index_or (row_at world.now.world row).values attr (pos 0)) }
{
    for attr in 0..world.width() {
        let at = attr as usize;
        sums[at] = plus(sums[at], world.at(row, attr));
    }
}

fn plus(sum: i64, number: Num) -> i64
    requires { unsigned_abs sum ≤ 65536000000000000 }
    ensures { result ≡ sum +ℤ number }
{
    sum + number.get()
}
