//! The law of names of the values of enumerated types, the contract of a function that does nothing.

ghost use Rattle.ess_named_values_laws.specs.Laws.{NamedValuesArePositions};

/// Over tables the position of a value stands for the name that a specification gives it.
pub fn named_values_are_positions()
    ensures { NamedValuesArePositions }
{}
