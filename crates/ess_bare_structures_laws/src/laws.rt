//! Laws of structures of nested sets, each the contract of a function that does nothing.

ghost use Rattle.ess_bare_structures_laws.specs.Laws.{NestedStructuresAreBare};

/// The constraint that the tables of a nested find are canonical, told apart, is bare and in scope, binds few names, spells no numbers but
/// those of its domain, 0, 1 and 2; and over tables on the declared axes with items in the declared domains each part of it has a value
/// wherever its context holds, and it means that the tables are canonical.
pub fn nested_structures_are_bare()
    ensures { NestedStructuresAreBare }
{}
