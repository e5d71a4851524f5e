//! The law of what rules leave of trees over views of sets, the contract of a function that does nothing.

ghost use Rattle.ess_seen_stays_laws.specs.Laws.{StaysSeen};

/// What a rule makes of such a tree is one again.
pub fn stays_seen()
    ensures { StaysSeen }
{}
