//! The laws that lead from what the parts of the program answer to the headline, each the contract of a function that does nothing: chains of
//! rules, rules and objectives that are written, models that are built, texts of them, and that a model is written at all.

ghost use Rattle.conjure_standing_laws.specs.BareLaws.{BareTreesStayBare};
ghost use Rattle.conjure_standing_laws.specs.SeenLaws.{SeenTreesStaySeen};
ghost use Rattle.conjure_standing_laws.specs.SetwiseLaws.{SetwiseRulesStand, SetwiseObjectivesStand};
ghost use Rattle.conjure_standing_laws.specs.SetwiseComing.{SetwiseTreesCome};
ghost use Rattle.conjure_standing_laws.specs.NestedLaws.{NestedTablesStay, NestedDomainsStay, NestedRulesStand};
ghost use Rattle.conjure_standing_laws.specs.FlatLaws.{BuiltModelsAreRight};
ghost use Rattle.conjure_standing_laws.specs.MemberLaws.{BuiltModelsOfSetsAreRight};
ghost use Rattle.conjure_standing_laws.specs.MixedLaws.{BuiltMixedModelsAreRight};
ghost use Rattle.conjure_standing_laws.specs.Laws.{FlatTextsAreMixed, WrittenMixedModelsStand};
ghost use Rattle.conjure_standing_laws.specs.Laws.{WrittenModelsOfScalarsStand, WrittenModelsOfSetsStand};
ghost use Rattle.conjure_standing_laws.specs.ComingLaws.{FlatSpecificationsLackNothing, FlatTextsHaveModels, MixedPartsCome};

/// Rules lead from bare trees to bare trees that mean the same.
pub fn bare_trees_stay_bare()
    ensures { BareTreesStayBare }
{}

/// Rules lead from a tree over views of sets to such a tree that means the same; where nothing abstract is left it is one that rules end in.
pub fn seen_trees_stay_seen()
    ensures { SeenTreesStaySeen }
{}

/// The rule of a constraint over scalars, ranges and nested sets says what the constraint says.
pub fn setwise_rules_stand()
    ensures { SetwiseRulesStand }
{}

/// What is written for an objective over scalars, ranges and nested sets is the number that it is.
pub fn setwise_objectives_stand()
    ensures { SetwiseObjectivesStand }
{}

/// Something comes of each constraint and each objective over scalars, ranges and nested sets.
pub fn setwise_trees_come()
    ensures { SetwiseTreesCome }
{}

/// The tables of nested sets are written as they are declared.
pub fn nested_tables_stay()
    ensures { NestedTablesStay }
{}

/// Over tables the domain of a nested set is itself.
pub fn nested_domains_stay()
    ensures { NestedDomainsStay }
{}

/// The rules that are written for a nested set say that its tables are canonical.
pub fn nested_rules_stand()
    ensures { NestedRulesStand }
{}

/// Each model that is built of a well typed specification of scalars with flat and total constraints stands for it.
pub fn built_models_are_right()
    ensures { BuiltModelsAreRight }
{}

/// Each model that is built of a well typed specification of sets of atoms stands for it.
pub fn built_models_of_sets_are_right()
    ensures { BuiltModelsOfSetsAreRight }
{}

/// Each model that is built of a well typed specification of scalars and sets stands for it.
pub fn built_mixed_models_are_right()
    ensures { BuiltMixedModelsAreRight }
{}

/// What is written for a text of a specification of scalars with flat and total constraints stands for it.
pub fn written_models_of_scalars_stand()
    ensures { WrittenModelsOfScalarsStand }
{}

/// What is written for a text of a specification of sets of atoms with memberships stands for it.
pub fn written_models_of_sets_stand()
    ensures { WrittenModelsOfSetsStand }
{}

/// What is written for a text of scalars and sets with flat constraints and memberships stands for it.
pub fn written_mixed_models_stand()
    ensures { WrittenMixedModelsStand }
{}

/// Each part of the model of a specification of scalars with flat and total constraints can be written, and some text has it.
pub fn flat_specifications_lack_nothing()
    ensures { FlatSpecificationsLackNothing }
{}

/// A model is written for each text of a specification of scalars with flat and total constraints: none is answered as not supported yet.
pub fn flat_texts_have_models()
    ensures { FlatTextsHaveModels }
{}

/// Each part of the model of a specification of scalars and sets can be written.
pub fn mixed_parts_come()
    ensures { MixedPartsCome }
{}

/// Texts of specifications of scalars are texts of scalars and sets.
pub fn flat_texts_are_mixed()
    ensures { FlatTextsAreMixed }
{}
