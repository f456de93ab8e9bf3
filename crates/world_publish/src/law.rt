//! That looks, publications and what is learnt are events of a stand, and that no look is before
//! what was learnt.

ghost use Rattle.world_publish.specs.Steps.{LearnsAreEvents, LearntIsNotPassed, LooksAreEvents, LooksBehindAreEvents, PublishesAreEvents};

/// A law, and no work: each look at a stand is one event `Look` of its machine, and each publication one `Publish`. So is a
/// look over what was learnt, and to learn of a published position is one event `Learn`.
pub fn steps_are_events()
    ensures looks { LooksAreEvents }
    ensures publishes { PublishesAreEvents }
    ensures behind { LooksBehindAreEvents }
    ensures learns { LearnsAreEvents }
{}

/// A law, and no work: no look of a spectator that learnt of a position is before it, whatever came between.
pub fn learnt_is_not_passed()
    ensures { LearntIsNotPassed }
{}
