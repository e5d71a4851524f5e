//! Laws of steps by rules that read the kind of a view, each the contract of a function that does nothing.

ghost use Rattle.ess_given_kind_steps_laws.specs.GivenKindSteps.{KindStepsKeepGiven};

/// What is given stays by steps of rules that read the kind of a view, at a part and along chains, and comprehensions stay in order.
pub fn kind_steps_keep_given()
    ensures { KindStepsKeepGiven }
{}
