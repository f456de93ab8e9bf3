//! The table of a sample's units.
ghost use Rattle.std.specs.Prelude.{◌≡◌, ◌+◌, ◌≤◌, ◌<◌, ◌∷◌, ◌++◌, pos, ◌≤ℤ◌, length, IfOk};
ghost use Rattle.std.specs.Fmt.{signed_decimal};
ghost use Rattle.battle_maker.specs.Sample.{drawn, health as health_of, unit_line, units_text};

use sgl_values::{List, Memory, ROWS_MAX, UNITS_BYTES_MAX};
use std::alloc::Global;
use tick_random::random;
use unit_csv::{Line, push_number, push_signed_behind};

/// The names of a unit's values.
const HEADER: &[u8] = b"key,player,x,y,health\n";

/// No line of a unit has more bytes: a key of 5 digits, a player of 1, two places of 4 and a health of 3, and 5 signs.
const LINE_MAX: usize = 22;

/// The header and a line for each unit. It takes its memory once.
pub fn units_text(alloc: Global, n: u32, number: u64) -> Result<List<u8>, Memory>
    requires { n ≤ ROWS_MAX }
    ensures text { IfOk result (λ text. text ≡ units_text n number) }
    ensures length { IfOk result (λ text. length text ≤ UNITS_BYTES_MAX) }
{
    let mut text = Vec::with_capacity(alloc, HEADER.len() + n as usize * LINE_MAX)?;
    text.extend_from_slice(HEADER)?;
    for before in 0..n {
        text.extend_from_slice(&unit_line(number, before + 1))?;
    }
    Ok(List::from_vec(text))
}

/// The line of a unit.
fn unit_line(number: u64, key: u32) -> Line
    ensures text { result.items ≡ unit_line number key }
    ensures length { length result.items ≤ 105 }
{
    let mut line = Line::new();
    push_number(&mut line, u64::from(key));
    push_signed_behind(&mut line, b',', i64::from(key % 2 + 1));
    push_signed_behind(&mut line, b',', drawn(number, key, 0, 4_096));
    push_signed_behind(&mut line, b',', drawn(number, key, 1, 4_096));
    push_signed_behind(&mut line, b',', health(number, key));
    line.push(b'\n');
    line
}

/// The health of a unit, from 50 to 100.
fn health(number: u64, key: u32) -> i64
    ensures { result ≡ health_of number key }
{
    50 + drawn(number, key, 2, 51)
}

/// A number that a unit draws at the start, from 0 to below this count.
fn drawn(number: u64, key: u32, index: u16, count: u16) -> i64
    requires { 0 < count }
    ensures value { result ≡ drawn number key index count }
    ensures low { pos 0 ≤ℤ result }
    ensures high { result ≤ℤ pos count }
{
    random(number, 0, key, index).get() % i64::from(count)
}
