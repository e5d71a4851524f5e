//! The laws of specifications of scalars and sets, each the contract of a function that does nothing.

ghost use Rattle.ess_mixed_models_laws.specs.Laws.{ClassesAreMixed, MixedModelsAreRight};

/// Each model of a well typed specification of scalars and sets stands for it.
pub fn mixed_models_are_right()
    ensures { MixedModelsAreRight }
{}

/// Specifications of scalars alone and of sets alone are of the class.
pub fn classes_are_mixed()
    ensures { ClassesAreMixed }
{}
