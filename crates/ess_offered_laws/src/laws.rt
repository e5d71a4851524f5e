//! Laws of views and picks, each the contract of a function that does nothing.

ghost use Rattle.ess_offered_laws.specs.Laws.{ViewsHaveListings, PicksAreLookedUp};

/// Each view of a container offers a listing of its members, whatever its kind.
pub fn views_have_listings()
    ensures { ViewsHaveListings }
{}

/// Whatever is picked is looked up, unless it is an item of a matrix that isn't known by its form, or a relation that is applied.
pub fn picks_are_looked_up()
    ensures { PicksAreLookedUp }
{}
