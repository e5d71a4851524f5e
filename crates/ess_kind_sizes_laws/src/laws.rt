//! Laws of what views of sets offer, each the contract of a function that does nothing.

ghost use Rattle.ess_kind_sizes_laws.specs.ViewsBehind.{ListingsOfSetsAreApart};

/// Where a new name is taken for the listing of a view of a set, its bound names are apart from all that stands behind the view, as rules
/// that put the item for a name ask.
pub fn listings_of_sets_are_apart()
    ensures { ListingsOfSetsAreApart }
{}
