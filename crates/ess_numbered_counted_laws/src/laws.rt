//! Laws of what rules of counted lists count on, each the contract of a function that does nothing.

ghost use Rattle.ess_numbered_counted_laws.specs.NumbersCounted.{NumbersAreCountedOn};

/// These rules keep what they rewrite where each part of the tree has a value wherever its context holds, but for numbers in natural
/// places, names are new, terms have values of their types, and what is said to be the number of the items of a list is there. That it is
/// there does not follow: it isn't a part of the tree.
pub fn numbers_are_counted_on()
    ensures { NumbersAreCountedOn }
{}
