//! Laws of rewriting, each the contract of a function that does nothing.

ghost use Rattle.ess_rules_laws.specs.Laws.{UnusedNamesChangeNothing, PartsMayBeReplaced, StepsKeepTheWhole, KeptPartsKeepTheWhole, RewritingKeepsTheWhole, WordsForgetOrder};
ghost use Rattle.ess_rules_laws.specs.SpliceRules.{SpliceKeeps, TailsAreCongruent};
ghost use Rattle.ess_rules_laws.specs.GeneratorRules.{GenerateKeeps};
ghost use Rattle.ess_rules_laws.specs.SplitRules.{SplitKeeps};
ghost use Rattle.ess_rules_laws.specs.SourceRules.{SourceRulesKeep};
ghost use Rattle.ess_rules_laws.specs.Lookups.{SelectRulesKeep};
ghost use Rattle.ess_rules_laws.specs.FunctionLookups.{FunctionsAreLookedUp};
ghost use Rattle.ess_rules_laws.specs.PartLookups.{PartsAreLookedUp};
ghost use Rattle.ess_rules_laws.specs.SetListings.{SetViewsAreListed};
ghost use Rattle.ess_rules_laws.specs.SlotListings.{SlotViewsAreListed};
ghost use Rattle.ess_rules_laws.specs.ListedSources.{ListedSourcesKeep, ListingsAreMet};
ghost use Rattle.ess_rules_laws.specs.RuleLaws.{FoldRulesKeep, MembershipRulesKeep, InclusionRulesKeep, SizeRulesKeep, ComponentRulesKeep, LiteralRulesKeep, ListingsList};

/// A value of a name that isn't free in an expression changes no meaning. So a bound name may be any name that isn't free
/// there, and one that a parameter brings may be bound.
pub fn unused_names_change_nothing()
    ensures { UnusedNamesChangeNothing }
{}

/// A part of a tree may be replaced by one that means the same wherever the context of the part holds: at the bindings
/// of the generators in scope at which the conditions before it hold, and where the left operands of `/\` and `->` are
/// true whose right operands hold it.
pub fn parts_may_be_replaced()
    ensures { PartsMayBeReplaced }
{}

/// What keeps a part wherever the context of the part holds keeps the whole: its meaning, and that tables meet its
/// structures.
pub fn steps_keep_the_whole()
    ensures { StepsKeepTheWhole }
{}

/// A rule that keeps a part under the types of names, used anywhere in a tree, keeps the whole.
pub fn kept_parts_keep_the_whole()
    ensures { KeptPartsKeepTheWhole }
{}

/// So do any number of such rules, one after the other at any parts.
pub fn rewriting_keeps_the_whole()
    ensures { RewritingKeepsTheWhole }
{}

/// Over comprehensions that have the same items equally often a word that forgets their order means the same.
pub fn words_forget_order()
    ensures { WordsForgetOrder }
{}

/// The rules of folds keep what they rewrite: over a condition alone, over a literal of no item or one, and over any term.
pub fn fold_rules_keep()
    ensures { FoldRulesKeep }
{}

/// The rules of `in` keep what they rewrite.
pub fn membership_rules_keep()
    ensures { MembershipRulesKeep }
{}

/// The rules of `!=`, of the signs of inclusion, and of `=` between sets, relations, multisets and functions keep what they rewrite.
pub fn inclusion_rules_keep()
    ensures { InclusionRulesKeep }
{}

/// The rules of `|..|`, `freq` and `together` keep what they rewrite.
pub fn size_rules_keep()
    ensures { SizeRulesKeep }
{}

/// What a container term offers lists its members, each as often as it is there.
pub fn listings_list()
    ensures { ListingsList }
{}

/// The rules of `=` by components keep what they rewrite.
pub fn component_rules_keep()
    ensures { ComponentRulesKeep }
{}

/// The generators and the item of a comprehension may stand in the place of a generator over it.
pub fn splicing_keeps()
    ensures { SpliceKeeps }
{}

/// A generator over an intersection, a difference, or a set made of a container that has its members already, may run over the
/// first of these.
pub fn generating_keeps()
    ensures { GenerateKeeps }
{}

/// The rules of folds over unions and over literals keep what they rewrite: each part has a fold of its own.
pub fn source_rules_keep()
    ensures { SourceRulesKeep }
{}

/// What rewrites a comprehension at each binding of generators rewrites the one with these generators before its own.
pub fn tails_are_congruent()
    ensures { TailsAreCongruent }
{}

/// A generator over a tuple of domains may be one over each of the components.
pub fn splitting_keeps()
    ensures { SplitKeeps }
{}

/// The rules of operators on literals keep what they rewrite: of a component of a tuple, of a field
/// of a record, of `allDiff` of a list, and of `min` and `max` of a set or multiset.
pub fn literal_rules_keep()
    ensures { LiteralRulesKeep }
{}

/// An operator on a picked value keeps its meaning as one on the item of what looks the value up, and so does a picked
/// truth value or number by itself.
pub fn selecting_keeps()
    ensures { SelectRulesKeep }
{}

/// The result of a function at an argument is looked up over the pairs of the function, whatever term gives it.
pub fn functions_are_looked_up()
    ensures { FunctionsAreLookedUp }
{}

/// A view of a set kept as the members that occur lists the members of the set, in their order: those of the inner domain whose
/// cell is true. Tables that meet its structure meet that of the listing.
pub fn set_views_are_listed()
    ensures { SetViewsAreListed }
{}

/// A generator over a term that offers a listing becomes the generators of the listing, with the item in the place of the
/// name: in a comprehension where the listing has the members in order, else under words that forget order, and under folds
/// where the listing has several alternatives.
pub fn listed_sources_keep()
    ensures { ListedSourcesKeep }
{}

/// Tables that meet the structures of a term meet those of the alternatives that it offers.
pub fn listings_are_met()
    ensures { ListingsAreMet }
{}

/// A component or a field is looked up through a lookup of the tuple or record, and so is what any other operator but a
/// connective makes of a looked up operand; the item of a matrix at an index is looked up over the index domain.
pub fn parts_are_looked_up()
    ensures { PartsAreLookedUp }
{}

/// A view of a set in slots, all in use, with flags or up to a marker, offers the views in its slots in use: they list the
/// members of the set, and tables that meet its structure meet theirs.
pub fn slot_views_are_listed()
    ensures { SlotViewsAreListed }
{}
