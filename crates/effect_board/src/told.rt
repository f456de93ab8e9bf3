//! What a seat gave to words of its own, for contracts alone. It has no bytes, and what is done with it is no work.
ghost use Rattle.std.specs.Prelude.{◌≡◌, ◌∷◌};

use boxcar::tag::{Names, Tag};

// One give more than were told before.
#[derive(Drop)]
struct Next {
    word: u64,
    amount: u64,
    before: Tag,
}

struct Before;

impl Names<Tag> for Before {
    ghost numbers = { λ tag. tag.numbers };
}

struct After;

impl Names<Next> for After {
    ghost numbers = { λ next. next.word ∷ next.amount ∷ next.before.numbers };
}

// The same with one give more, whose numbers come first.
pub(crate) fn told_with(told: &Tag, word: u64, amount: u64) -> Tag
    ensures { result.numbers ≡ word ∷ amount ∷ told.now.numbers }
{
    let before = Tag::of::<Tag, Before>(told);
    Tag::of::<Next, After>(&Next {
        word,
        amount,
        before,
    })
}
