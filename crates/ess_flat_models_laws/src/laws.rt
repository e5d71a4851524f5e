//! The law of specifications of scalars, the contract of a function that does nothing.

ghost use Rattle.ess_flat_models_laws.specs.Laws.{FlatSpecificationsHaveModels};

/// The model of a well typed specification of scalars with flat and total constraints stands for it.
pub fn flat_specifications_have_models()
    ensures { FlatSpecificationsHaveModels }
{}
