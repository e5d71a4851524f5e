//! Laws of what models are built of, each the contract of a function that does nothing.

ghost use Rattle.conjure_model_laws.specs.Laws.{BuiltModelsKeepTheirTrees};

/// A model that is built from a specification by rules that keep has its header and an objective of its direction, and each of its
/// rules, and each bound of its declarations, is printed for a refined tree that keeps what it comes from.
pub fn built_models_keep_their_trees()
    ensures { BuiltModelsKeepTheirTrees }
{}
