//! A folder of files that are read one at a time.
ghost use Rattle.std.specs.Prelude.{◌≡◌, List, ℕ, Option};
ghost use Rattle.sgl_outside.specs.Causes.{HasCauseAt};
ghost use Rattle.sgl_outside.specs.Folders.{Files, Begins, Reads};

use crate::Failed;

/// Files under names, of which one at a time is read from its beginning to its end.
///
/// At first no byte is left under any name. A call that fails changes no bytes, held or left, and comes only where the
/// count of faults of the name that it was given rose, or stands at its last value, 2^64 - 1. No count ever falls.
pub trait Folder {
    /// The bytes held under each name, where the folder tells them.
    ghost held: { Self → Option Files };

    /// The bytes left under each name, where the folder tells them.
    ghost left: { Self → List ℕ → Option (List ℕ) };

    /// The count of faults of each name.
    ghost faults: { Self → List ℕ → ℕ };

    /// Starts the file of that name from its beginning: its held bytes are its left bytes, and none are left of any
    /// other file. A missing name is a fault.
    fn begin(&mut self, name: &str) -> Result<(), Failed>
        ensures held { held self.new ≡ held self.old }
        ensures bytes { Begins (held self.old) (left self.old) (left self.new) name.now result }
        ensures cause { HasCauseAt (faults self.old) (faults self.new) name.now result };

    /// Moves the next bytes of the file to the front of `buf`, and answers their number. With room in `buf` it answers
    /// 0 exactly where no byte is left.
    fn read(&mut self, name: &str, buf: &mut [u8]) -> Result<usize, Failed>
        ensures held { held self.new ≡ held self.old }
        ensures bytes { Reads (left self.old) (left self.new) name.now result buf.new }
        ensures cause { HasCauseAt (faults self.old) (faults self.new) name.now result };
}
