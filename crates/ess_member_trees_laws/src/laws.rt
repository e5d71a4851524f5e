//! Laws of the trees of a membership, each the contract of a function that does nothing.

ghost use Rattle.ess_member_trees_laws.specs.Laws.{MembershipsStayInFamily};

/// Rules lead from a membership to a few trees.
pub fn memberships_stay_in_family()
    ensures { MembershipsStayInFamily }
{}
