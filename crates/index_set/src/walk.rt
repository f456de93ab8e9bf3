//! Rows that are walked through, of which those that pass are taken.
ghost use Rattle.std.specs.Prelude.{◌≡◌, ℕ, ◌<◌, [], ◌∷◌, All, Some, length};
ghost use Rattle.std.specs.Iterator.{YieldsFirst};
ghost use Rattle.sgl_evaluate.specs.Frame.{context_of, IsFrame};
ghost use Rattle.sgl_evaluate.specs.Rights.{AreRights};
ghost use Rattle.index_set.specs.Walks.{is_exact, passing_rest, row_passes, sole_of, walk_rest, AreEnough, AsksEnough};

use crate::others::Others;
use row_groups::Strip;
use sgl_evaluate::{Frame, Rights, meets, passes};
use sgl_typed::TTest;

/// Rows to be walked through: those of a range, those of a strip, those of a strip that stands for all tests but the one
/// with a number, those of a strip that stands for all, or those of the strips of all groups but one, which do so.
#[derive(Debug, Drop)]
pub(crate) enum Walk<'a> {
    Rows { next: u32, end: u32 },
    Strip(Strip<'a>),
    Sole { strip: Strip<'a>, number: usize },
    Exact(Strip<'a>),
    Others(Others<'a>),
}

impl<'a> Walk<'a> {
    // The next row.
    fn step(&mut self) -> Option<u32>
        ensures yields { YieldsFirst walk_rest self.old result self.new }
        ensures exact { is_exact self.new ≡ is_exact self.old }
        ensures sole { sole_of self.new ≡ sole_of self.old }
    {
        match self {
            Walk::Rows { next, end } => {
                if *next < *end {
                    let row = *next;
                    *next += 1;
                    Some(row)
                } else {
                    None
                }
            }
            Walk::Strip(strip) => strip.next(),
            Walk::Sole { strip, .. } => strip.next(),
            Walk::Exact(strip) => strip.next(),
            Walk::Others(others) => others.step(),
        }
    }

    // The number of the only test that is asked.
    fn sole(&self) -> Option<usize>
        ensures { result ≡ sole_of self.now }
    {
        match self {
            Walk::Sole { number, .. } => Some(*number),
            _ => None,
        }
    }

    /// The next row that passes all tests.
    pub(crate) fn next_passing(
        &mut self,
        frame: &Frame,
        tests: &[TTest],
        rights: &Rights,
    ) -> Option<u32>
        requires frame { IsFrame frame.now }
        requires rights { AreRights (context_of frame.now) tests.now rights.now }
        requires within { All (λ row. row < length frame.now.tick.world.now.world.rows) (walk_rest self.old) }
        requires enough { AsksEnough (context_of frame.now) tests.now self.old }
        ensures yields { YieldsFirst (passing_rest (context_of frame.now) tests.now) self.old result self.new }
        ensures within { All (λ row. row < length frame.now.tick.world.now.world.rows) (walk_rest self.new) }
        ensures enough { AsksEnough (context_of frame.now) tests.now self.new }
    {
        let sole = self.sole();
        'walk: while let Some(row) = self.step() {
            if does_pass(frame, tests, rights, sole, row) {
                return Some(row);
            }
        }
        None
    }
}

// Whether a row passes all tests, of which only one is asked where that is enough.
fn does_pass(frame: &Frame, tests: &[TTest], rights: &Rights, sole: Option<usize>, row: u32) -> bool
    requires frame { IsFrame frame.now }
    requires rights { AreRights (context_of frame.now) tests.now rights.now }
    requires row { row < length frame.now.tick.world.now.world.rows }
    requires enough { (number : ℕ) → sole ≡ Some number → AreEnough (context_of frame.now) tests.now number (row ∷ []) }
    ensures { result ≡ row_passes (context_of frame.now) tests.now row }
{
    match sole {
        None => passes(frame, tests, rights, row),
        Some(number) => meets(frame, &tests[number], row, rights.at(frame, tests, number)),
    }
}
