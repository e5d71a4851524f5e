//! Laws of rules over bindings and values, each the contract of a function that does nothing.

ghost use Rattle.ess_values_bindings_laws.specs.BindingsKeepValues.{BindingsKeepValues};

/// The rules over a set made of another container, over a tuple of domains, over a name of one and of a record, and of a condition that
/// leaves a fold of truth values keep at their root that each part of the tree has a value wherever its context holds, but for numbers in
/// natural places, where they keep the meaning and structures are met.
pub fn bindings_keep_values()
    ensures { BindingsKeepValues }
{}
