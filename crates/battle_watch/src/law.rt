//! Laws of the definitions, for proofs above.

ghost use Rattle.battle_watch.specs.Watches.{NoneWatchedIsNoText};

/// A law, and no work: without spectators no line is written.
pub fn no_spectator_writes_no_line()
    ensures { NoneWatchedIsNoText }
{}
