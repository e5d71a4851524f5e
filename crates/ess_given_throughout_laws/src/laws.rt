//! Laws of what is given, for all rules but those of counted sources together, each the contract of a function that does nothing.

ghost use Rattle.ess_given_throughout_laws.specs.GivenThroughout.{GivenThroughout};
ghost use Rattle.ess_given_throughout_laws.specs.CountedAxes.{AxesCountFixed};

/// What is given in conditions stays: from each judged tree of a specification chains of rules of all sorts, but of those of counted
/// sources, end with cells of givens alone in conditions and domains.
pub fn given_stays_throughout()
    ensures { GivenThroughout }
{}

/// Matrices may be compared on the way where each side that is a comprehension runs over domains alone: its index domain counts what is
/// fixed.
pub fn axes_over_domains_are_given()
    ensures { AxesCountFixed }
{}
