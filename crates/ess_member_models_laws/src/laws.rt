//! Laws of models of memberships, each the contract of a function that does nothing.

ghost use Rattle.ess_member_models_laws.specs.Laws.{MemberModelsAreRight};

/// A model with the declarations of sets and a rule written for each membership stands for its specification.
pub fn member_models_are_right()
    ensures { MemberModelsAreRight }
{}
