//! A sink that takes bytes.
ghost use Rattle.std.specs.Prelude.{List, ℕ, Option, IfOk};
ghost use Rattle.std.specs.Io.KnownBytes.{WriteAppends};
ghost use Rattle.sgl_outside.specs.Causes.{HasCause};
ghost use Rattle.sgl_outside.specs.Sinks.{Takes, Writes};

use crate::Failed;

/// What bytes are written to.
pub trait Sink {
    /// The bytes that were written, where the sink tells them.
    ghost written: { Self → Option (List ℕ) };

    /// The count of faults, which never falls.
    ghost faults: { Self → ℕ };

    /// Takes a prefix of the piece and answers its length, at least 1 where the piece is not empty. After a fault
    /// nothing was taken, and the count of faults rose, or stands at its last value.
    fn write(&mut self, piece: &[u8]) -> Result<usize, Failed>
        ensures takes { IfOk result (Takes piece.now) }
        ensures bytes { WriteAppends (written self.old) (written self.new) result piece.now }
        ensures cause { HasCause (faults self.old) (faults self.new) result };
}

/// Writes the whole piece, in as many writes as it takes. After a fault a prefix of the piece was written, and the
/// sink's count of faults rose, or stands at its last value.
pub fn put<S: Sink>(out: &mut S, piece: &[u8]) -> Result<(), Failed>
    ensures { Writes (S.written out.old) (S.written out.new) (S.faults out.old) (S.faults out.new) result piece.now }
{
    let mut rest = piece;
    while !rest.is_empty() {
        let count = out.write(rest)?;
        rest = &rest[count..];
    }
    Ok(())
}
