//! The key that tests ask for in a form that is told once for many acting units.
ghost use Rattle.std.specs.Prelude.{◌≡◌, ◌<◌, ℕ, List, [], ◌∷◌, ◌++◌, length, map, slice_index_or};
ghost use Rattle.row_groups.specs.Keys.{four_of};
ghost use Rattle.sgl_evaluate.specs.Rights.{AreRights, right_of};
ghost use Rattle.sgl_typed.specs.Value.{Context};
ghost use Rattle.sgl_typed.specs.declared.script.TTest.{TTest as TTestOf};
ghost use Rattle.test_boxes.specs.Forms.{ArePicked, IsKeyForm};
ghost use Rattle.test_boxes.specs.Readings.{grouping};
ghost use Rattle.test_boxes.specs.declared.reading.Reading.{Reading as ReadingOf};

use crate::reading::{Reading, groups_by};
use sgl_evaluate::Rights;
use sgl_typed::TTest;
use sgl_values::{Num, TESTS_MAX};

/// The numbers of the tests whose values number groups, up to the fourth.
#[derive(Clone, Copy, Debug)]
pub(crate) struct KeyForm {
    pub(crate) numbers: [usize; 4],
    pub(crate) count: usize,
}

impl KeyForm {
    /// Those of tests in this reading. It takes no memory.
    pub(crate) fn of(tests: &[TTest], how: Reading) -> KeyForm
        ensures { IsKeyForm result how tests.now }
    {
        let mut form = KeyForm {
            numbers: [0; 4],
            count: 0,
        };
        for number in 0..tests.len() {
            if groups_by(how, &tests[number]) {
                form.push(number);
            }
        }
        form
    }

    // Puts a number after the others. A fifth one is left out.
    fn push(&mut self, number: usize)
        ensures { (tests picked : List TTestOf) (bound : ℕ) (test : TTestOf) → number < bound → ((d : TTestOf) → test ≡ slice_index_or tests number d)
            → ArePicked self.old tests bound picked → ArePicked self.new tests bound (picked ++ test ∷ []) }
    {
        if self.count < 4 {
            self.numbers[self.count] = number;
            self.count += 1;
        }
    }

    /// The right sides of these tests, and 0 in the place of each that is missing. It takes no memory.
    pub(crate) fn key(&self, rights: &Rights) -> [Num; 4]
        requires { (i d : ℕ) → i < self.now.count → slice_index_or self.now.numbers i d < TESTS_MAX }
        ensures { (c : Context) (tests : List TTestOf) (how : ReadingOf) → IsKeyForm self.now how tests → AreRights c tests rights.now
            → result ≡ four_of (map (right_of c) (grouping how tests)) }
    {
        let mut key = [Num::zero(); 4];
        for place in 0..self.count.min(4) {
            key[place] = rights.one(self.numbers[place]);
        }
        key
    }
}
