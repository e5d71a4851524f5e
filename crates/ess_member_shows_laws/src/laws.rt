//! Laws of specifications of sets over tables, each the contract of a function that does nothing.

ghost use Rattle.ess_member_shows_laws.specs.Laws.{MembershipsAreShown};

/// A constraint that a value is in a find is, over tables, a membership in a set that is kept by which members occur.
pub fn memberships_are_shown()
    ensures { MembershipsAreShown }
{}
