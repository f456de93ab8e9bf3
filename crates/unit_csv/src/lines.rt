//! Lines that are put together without taking memory.
ghost use Rattle.std.specs.Prelude.{◌≡◌, ◌+◌, ◌≤◌, ◌∷◌, ◌++◌, length, decimal};
ghost use Rattle.std.specs.Fmt.{signed_decimal};

use arrayvec::ArrayVec;
use itoa::Buffer;

/// A line of at most 2,048 bytes. The longest lines are a header of `key` and 32 names of 31 bytes, of 1,028 bytes, and
/// a row of a key and 32 values, of at most 491 bytes.
pub type Line = ArrayVec<u8, 2048>;

/// Puts a piece behind a line that has room for it.
pub fn push_piece(line: &mut Line, piece: &[u8])
    requires { length line.old.items + length piece.now ≤ 2048 }
    ensures { line.new.items ≡ line.old.items ++ piece.now }
{
    // It fits.
    let _ = line.try_extend_from_slice(piece);
}

/// Puts a number behind a line with room for 20 bytes.
pub fn push_number(line: &mut Line, number: u64)
    requires { length line.old.items + 20 ≤ 2048 }
    ensures text { line.new.items ≡ line.old.items ++ decimal number }
    ensures length { length line.new.items ≤ length line.old.items + 20 }
{
    let mut buffer = Buffer::new();
    push_piece(line, buffer.format(number).as_bytes());
}

/// Puts a byte, and behind it a number with its sign, behind a line with room for 21 bytes.
pub fn push_signed_behind(line: &mut Line, byte: u8, number: i64)
    requires { length line.old.items + 21 ≤ 2048 }
    ensures text { line.new.items ≡ line.old.items ++ byte ∷ signed_decimal number }
    ensures length { length line.new.items ≤ length line.old.items + 21 }
{
    line.push(byte);
    let mut buffer = Buffer::new();
    push_piece(line, buffer.format(number).as_bytes());
}
