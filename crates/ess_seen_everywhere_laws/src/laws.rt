//! The law of numbers that have a value everywhere, the contract of a function that does nothing.

ghost use Rattle.ess_seen_everywhere_laws.specs.Laws.{SeenNumbersAreEverywhere};

/// Refined numbers of trees over views have a value whatever conditions hold.
pub fn seen_numbers_are_everywhere()
    ensures { SeenNumbersAreEverywhere }
{}
