//! Laws of models, each the contract of a function that does nothing.

ghost use Rattle.conjure_laws.specs.Laws.{ModelsFollowFromLayers, RulesFollowFromChains, SetsHaveModels, PlansFit};

/// A model stands for its specification, where each layer delivers what it promises of one plan, one find or one constraint.
pub fn models_follow_from_layers()
    ensures { ModelsFollowFromLayers }
{}

/// Views in the place of names keep a tree, and a rule says what its constraint says where each step between them keeps.
pub fn rules_follow_from_chains()
    ensures { RulesFollowFromChains }
{}

/// Of each well typed specification of sets whose constraints are memberships the model stands for it. Nothing is assumed.
pub fn sets_have_models()
    ensures { SetsHaveModels }
{}

/// Options that a specification takes choose representations that fit, and plans fit where representations do.
pub fn plans_fit_their_domains()
    ensures { PlansFit }
{}
