//! Laws of rules that read the kind of a view, each the contract of a function that does nothing.

ghost use Rattle.ess_given_kinds_laws.specs.GivenKinds.{KindsKeepGiven};

/// Each rule that reads the kind of a view keeps what is given in domains, and comprehensions in order where order counts.
pub fn kinds_keep_given()
    ensures { KindsKeepGiven }
{}
