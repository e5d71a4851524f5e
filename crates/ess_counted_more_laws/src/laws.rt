//! Laws of what more rules count on, each the contract of a function that does nothing.

ghost use Rattle.ess_counted_more_laws.specs.MoreCounted.{MoreIsCountedOn};

/// Of twelve more rules what they count on beside new names follows, where each part of the tree has a value wherever its context holds,
/// but for numbers in natural places, structures are met, what is picked, folded or combined has the type that the rule asks for, and bound
/// names are told apart.
pub fn more_is_counted_on()
    ensures { MoreIsCountedOn }
{}
