//! The law of settled trees of a membership, the contract of a function that does nothing.

ghost use Rattle.ess_member_settled_laws.specs.Laws.{SettledMembershipsAreRefined};

/// Where no rule that is asked fires at any part of a tree of a membership, nothing abstract is left in it; so refining one is never given
/// up.
pub fn settled_memberships_are_refined()
    ensures { SettledMembershipsAreRefined }
{}
