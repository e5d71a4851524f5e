//! The law of options with which the same is kept, the contract of a function that does nothing.

ghost use Rattle.conjure_alike_laws.specs.Laws.{AlikeOptionsHaveTheSameModels};

/// Options with the same plans and the same header have the same models, and the same exact ones.
pub fn alike_options_have_the_same_models()
    ensures { AlikeOptionsHaveTheSameModels }
{}
