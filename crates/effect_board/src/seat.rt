//! What a worker can ask of its seat, and how many seats a board has at most.
ghost use Rattle.std.specs.Prelude.{◌≡◌, ◌<◌, length};
ghost use Rattle.tick_core.specs.Core.{tag_of};
ghost use Rattle.effect_board.specs.Views.{is_done, may_split, giving};
ghost use Rattle.effect_board.specs.Handles.{view_of};

use crate::handles::Seat;
use crate::told::told_with;
use effect_combine::merge;
use sgl_values::{Tag, WORKERS_MAX};

impl Seat {
    /// Whether this is the first seat and has made fewer than 63 others.
    pub fn may_split(&self) -> bool
        ensures { result ≡ may_split (view_of self.now) }
    {
        self.number == 0 && self.made < WORKERS_MAX
    }

    /// Whether a claim with this seat, or with one that was joined into it directly or through others, has answered `None`.
    pub fn done(&self) -> bool
        ensures { result ≡ is_done (view_of self.now) }
    {
        self.done
    }

    // Merges an amount into a word of the seat's own.
    pub(crate) fn keep(&mut self, tag: Tag, word: usize, amount: u64)
        requires inside { word < length self.old.own.items }
        requires tag { tag ≡ tag_of (view_of self.old).tags word }
        ensures place { self.new.place ≡ self.old.place }
        ensures own { length self.new.own.items ≡ length self.old.own.items }
        ensures view { view_of self.new ≡ giving (view_of self.old) record { word = word; amount = amount } }
    {
        self.own[word] = merge(tag, self.own[word], amount);
        self.told = told_with(&self.told, word as u64, amount);
    }
}
