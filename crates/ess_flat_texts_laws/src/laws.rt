//! The law of texts of models of scalars, the contract of a function that does nothing.

ghost use Rattle.ess_flat_texts_laws.specs.Laws.{FlatModelsAreReadable};

/// The model of a specification of scalars that some text has is one that some text has.
pub fn flat_models_are_readable()
    ensures { FlatModelsAreReadable }
{}
