//! Laws of what is written for a membership, each the contract of a function that does nothing.

ghost use Rattle.ess_member_rules_laws.specs.Laws.{MembershipsAreWritten};

/// What is written for a refined tree of a membership has one of three forms, and says what the cell of the value says.
pub fn memberships_are_written()
    ensures { MembershipsAreWritten }
{}
