//! The law of what is given in conditions, the contract of a function that does nothing.

ghost use Rattle.ess_given_specifications_laws.specs.JudgedOrder.{SpecificationsStayGiven};

/// From a judged tree of a specification, shown over its views, each chain of rules to a refined tree in which no condition can leave ends
/// with cells of givens alone in conditions and domains.
pub fn specifications_stay_given()
    ensures { SpecificationsStayGiven }
{}
