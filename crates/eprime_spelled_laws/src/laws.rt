//! Laws of texts that spell models, each the contract of a function that does nothing.

ghost use Rattle.eprime_spelled_laws.specs.Laws.{OneListOfParts, SpelledModelsAreRead};

/// Each list of tokens has at most one list of parts of a model.
pub fn one_list_of_parts()
    ensures { OneListOfParts }
{}

/// A text that spells a model's tree, and is a model by the rules, is that model.
pub fn spelled_models_are_read()
    ensures { SpelledModelsAreRead }
{}
