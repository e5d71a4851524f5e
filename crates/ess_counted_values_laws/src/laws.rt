//! Laws of what rules count on, each the contract of a function that does nothing.

ghost use Rattle.ess_counted_values_laws.specs.CountedValues.{ValuesAreCountedOn};

/// Of 35 rules what they count on beside new names follows, where each part of the tree has a value wherever its context holds, but for
/// numbers in natural places, and operands have values of their types.
pub fn values_are_counted_on()
    ensures { ValuesAreCountedOn }
{}
