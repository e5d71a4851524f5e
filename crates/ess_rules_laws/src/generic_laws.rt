//! Laws of the generic rules, each the contract of a function that does nothing.

ghost use Rattle.ess_rules_laws.specs.GenericLaws.{PartitionRulesKeep};
ghost use Rattle.ess_rules_laws.specs.MatrixRules.{MatrixRulesKeep};
ghost use Rattle.ess_rules_laws.specs.ConditionRules.{ConditionRulesKeep};
ghost use Rattle.ess_rules_laws.specs.ContainerListings.{MadeListingsList};
ghost use Rattle.ess_rules_laws.specs.ListRules.{ListRulesKeep};
ghost use Rattle.ess_rules_laws.specs.Progress.{OperatorsHaveRules, SourcesHaveListings};
ghost use Rattle.ess_rules_laws.specs.NamesStay.{NamesStay};
ghost use Rattle.ess_rules_laws.specs.LooseRules.{LooseFoldsKeep};
ghost use Rattle.ess_rules_laws.specs.NamesOfRules.{RulesAddNoNames};
ghost use Rattle.ess_rules_laws.specs.TupleNames.{NamesOverTuplesKeep};
ghost use Rattle.ess_rules_laws.specs.ChoiceRules.{ChoicesKeep};

/// The rule of `=` between partitions keeps what it rewrites: each part of one lies in a part of the other.
pub fn partition_rules_keep()
    ensures { PartitionRulesKeep }
{}

/// The rules of `=` between matrices keep what they rewrite: over an index domain that both have, over two index domains,
/// each of which must then lie in the other, and with the empty list.
pub fn matrix_rules_keep()
    ensures { MatrixRulesKeep }
{}

/// A fold over generators is one fold within another, both ways, where the comprehension has a value. A condition leaves the
/// generators of a fold for its body.
pub fn condition_rules_keep()
    ensures { ConditionRulesKeep }
{}

/// Relations, arguments and preimages of functions, participants of partitions, and literals of functions and partitions and
/// sets made of literals offer their listings: these have the members, each as often as it is there, and tables that meet the
/// structures of the term meet theirs. The set of results of a function is that of the second components of its pairs.
pub fn made_listings_list()
    ensures { MadeListingsList }
{}

/// `min`, `max` and `allDiff` of any term and the signs that compare lists are those of the list of its members, and `allDiff`
/// says of each item that it is there once.
pub fn list_rules_keep()
    ensures { ListRulesKeep }
{}

/// Some rule fires at each typed operator that looks into a container.
pub fn operators_have_rules()
    ensures { OperatorsHaveRules }
{}

/// Each term whose type has members offers a listing, is written as a set that does, or is left to its kind, to a lookup or to
/// what binds its name.
pub fn sources_have_listings()
    ensures { SourcesHaveListings }
{}

/// A part that brings no new free name brings none to the whole, and so do any number of rules that keep what they rewrite and
/// bring none: what mentions no find stays so.
pub fn names_stay()
    ensures { NamesStay }
{}

/// A quantifier over the set of the members of a term keeps its meaning over the term, whose repeats it doesn't see.
pub fn loose_folds_keep()
    ensures { LooseFoldsKeep }
{}

/// The rules of folds, `in`, inclusion, equality, sizes and lists bring no new free name, whatever name they bind.
pub fn rules_add_no_names()
    ensures { RulesAddNoNames }
{}

/// A name over a tuple of domains may run over the tuples of new names over the components.
pub fn names_over_tuples_keep()
    ensures { NamesOverTuplesKeep }
{}

/// A product of numbers that conditions choose is one that both choose, and such a number times one is itself.
pub fn choices_keep()
    ensures { ChoicesKeep }
{}
