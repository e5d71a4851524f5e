//! Laws of values along chains of rules, each the contract of a function that does nothing.

ghost use Rattle.ess_values_along_laws.specs.ValuesAlong.{ValuesAlong};

/// Where each rule keeps at its root that each part of the tree has a value wherever its context holds, but for numbers in natural places,
/// the whole keeps it, and so does a chain; what rules count on of operands and sources follows.
pub fn values_along()
    ensures { ValuesAlong }
{}
