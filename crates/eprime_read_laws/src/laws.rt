//! Laws of the machine of models, each the contract of a function that does nothing.

ghost use Rattle.eprime_read_laws.specs.Laws.{OneModel, ReadsDerivedModels, DerivesReadModels, StopsForGood, WholeBeforeStatements};

/// Each list of tokens is at most one model. This says nothing of the machine: it is a law of the rules for models, which
/// the machine proves.
pub fn tokens_are_one_model()
    ensures { OneModel }
{}

/// What the rules derive for a list of tokens, the machine reads, with the same model.
pub fn derived_models_are_read()
    ensures { ReadsDerivedModels }
{}

/// What the machine reads, the rules derive, with the same model.
pub fn read_models_are_derived()
    ensures { DerivesReadModels }
{}

/// Where the machine stops at a token, no model is derived whose tokens begin with those up to and with that one.
pub fn machine_stops_for_good()
    ensures { StopsForGood }
{}

/// Where the machine has gone past a word that begins a statement, the tokens before that word are a whole model.
pub fn whole_models_stand_before_statements()
    ensures { WholeBeforeStatements }
{}
