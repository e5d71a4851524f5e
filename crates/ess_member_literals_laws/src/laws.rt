//! Laws of literals of members, each the contract of a function that does nothing.

ghost use Rattle.ess_member_literals_laws.specs.Laws.{MembersHaveLiterals, MembersAreSpelled};

/// A member of a domain is printed as a literal of the domain's type that has it.
pub fn members_have_literals()
    ensures { MembersHaveLiterals }
{}

/// Where its numbers fit it is spelled.
pub fn members_are_spelled()
    ensures { MembersAreSpelled }
{}
