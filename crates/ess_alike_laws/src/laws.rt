//! Laws of types of listings, each the contract of a function that does nothing.

ghost use Rattle.ess_alike_laws.specs.AlikeListings.{ListingsAreAlike};
ghost use Rattle.ess_alike_laws.specs.AlikeMade.{MadeListingsAreAlike};

/// What a term whose parts are of one type offers as a listing has items of the type of its members.
pub fn listings_are_alike()
    ensures { ListingsAreAlike }
{}

/// So do listings of what is made of functions and partitions, and of literals of these.
pub fn made_listings_are_alike()
    ensures { MadeListingsAreAlike }
{}
