//! Laws of what views and selections offer, each the contract of a function that does nothing.

ghost use Rattle.ess_given_offers_laws.specs.GivenOffers.{GivenOffers};

/// What is given in a view is given in its listing, and what is given in a selection in what it picks; so is what is fixed, and what is in
/// order.
pub fn offers_are_given()
    ensures { GivenOffers }
{}
