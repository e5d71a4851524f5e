//! Laws of names of values, each the contract of a function that does nothing.

ghost use Rattle.ess_value_names_laws.specs.Laws.{ValuesHaveNames};

/// In a parameter of a well typed specification no two values of named types have one name, wherever a statement stands.
pub fn values_have_names()
    ensures { ValuesHaveNames }
{}
