//! The numbers of written-out lets.
ghost use Rattle.std.specs.Prelude.{◌≡◌, ◌+◌, ◌++◌, ◌∷◌, [], IfOk, OnOk};
ghost use Rattle.sgl_expand.specs.Written.{number_of, numbered_from};

use sgl_typed::OtherSlots;
use sgl_values::Memory;

/// A slot of a script, and the number of a `let` that was written out for it.
#[derive(Clone, Copy, Debug, PartialEq, Eq)]
pub struct Numbered {
    pub slot: u32,
    pub number: u32,
}

/// The slots that are known at a place, the latest last, and the number of the next `let`.
#[derive(Debug, Drop)]
pub struct Numbering {
    pub known: Vec<Numbered>,
    pub next: u32,
}

impl Numbering {
    /// The number of the next `let`, which is used up.
    pub fn take_number(&mut self) -> Result<u32, Memory>
        ensures number { IfOk result (λ number. number ≡ self.old.next) }
        ensures next { OnOk result (self.new.next ≡ self.old.next + 1) }
        ensures known { self.new.known ≡ self.old.known }
    {
        let number = self.next;
        self.next = number.checked_add(1).ok_or(Memory)?;
        Ok(number)
    }

    /// Makes a slot known under a number.
    pub fn learn(&mut self, slot: u32, number: u32) -> Result<(), Memory>
        ensures known { OnOk result (self.new.known.items ≡ self.old.known.items ++ record { slot = slot; number = number } ∷ []) }
        ensures next { self.new.next ≡ self.old.next }
    {
        self.known.push(Numbered { slot, number })?;
        Ok(())
    }

    /// Makes slots known, numbered from a number on.
    pub fn learn_all(&mut self, slots: &[u32], first: u32) -> Result<(), Memory>
        ensures known { OnOk result (self.new.known.items ≡ self.old.known.items ++ numbered_from first slots.now) }
        ensures next { self.new.next ≡ self.old.next }
    {
        let mut number = first;
        for slot in slots {
            self.learn(*slot, number)?;
            number = number.checked_add(1).ok_or(Memory)?;
        }
        Ok(())
    }
}

/// The number of the last `let` that was written out for a slot, or 0 where there is none. It looks at each of them.
pub fn number_of(known: &[Numbered], slot: u32) -> u32
    ensures { result ≡ number_of known.now slot }
{
    let mut number = 0;
    for one in known {
        if one.slot == slot {
            number = one.number;
        }
    }
    number
}

impl OtherSlots for Numbering {
    ghost slot_for = { λ numbering. number_of numbering.known.items };

    fn slot_for(&self, slot: u32) -> u32 {
        number_of(self.known.as_slice(), slot)
    }
}
