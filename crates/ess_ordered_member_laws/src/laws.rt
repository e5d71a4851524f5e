//! Laws of trees of a membership and of comprehensions where the order of items counts, each the contract of a function that does nothing.

ghost use Rattle.ess_ordered_member_laws.specs.MembershipOrder.{MembershipsHaveNoOrder};
ghost use Rattle.ess_ordered_member_laws.specs.MembershipNumbers.{MembershipsHaveNoNumbers};

/// No rule of comprehensions whose items have an order fires at a part of a tree of a membership.
pub fn memberships_have_no_order()
    ensures { MembershipsHaveNoOrder }
{}

/// Nor does a rule of sources whose items are counted.
pub fn memberships_have_no_numbers()
    ensures { MembershipsHaveNoNumbers }
{}
