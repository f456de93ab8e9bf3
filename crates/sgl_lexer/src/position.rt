//! The place behind some bytes of a text, by the lines and columns that they take.

ghost use Rattle.std.specs.Prelude.{◌≡◌, ◌+◌, ◌<◌, ◌^◌, length};
ghost use Rattle.sgl_lexer.specs.Places.{place_after};

use sgl_values::Place;

// The place behind these bytes, which begin at `place`.
pub(crate) fn place_after(place: Place, bytes: &[u8]) -> Place
    requires lines { place.line + length bytes.now < 2 ^ 32 }
    requires cols { place.col + length bytes.now + 1 < 2 ^ 32 }
    ensures { result ≡ place_after place bytes.now }
{
    let mut here = place;
    for byte in bytes {
        if *byte == b'\n' {
            here = Place {
                line: here.line + 1,
                col: 1,
            };
        } else {
            here.col += 1;
        }
    }
    here
}
