//! Laws of refining, each the contract of a function that does nothing.

ghost use Rattle.ess_refine_laws.specs.Everywhere.{EverywhereServes};
ghost use Rattle.ess_refine_laws.specs.LeavingConditions.{ConditionsLeave};
ghost use Rattle.ess_refine_laws.specs.WhatRulesCountOn.{AllRulesKeep};
ghost use Rattle.ess_refine_laws.specs.Progress.{TreesMakeProgress};
ghost use Rattle.ess_refine_laws.specs.TypesStay.{WholesKeepTypes};
ghost use Rattle.ess_refine_laws.specs.MarksStay.{WholesKeepMarks};
ghost use Rattle.ess_refine_laws.specs.ScopesStay.{WholesKeepScopes};
ghost use Rattle.ess_refine_laws.specs.ConstantsStay.{WholesKeepConstants};
ghost use Rattle.ess_refine_laws.specs.ExtremeRules.{ExtremesKeep};
ghost use Rattle.ess_refine_laws.specs.MovingConditions.{ConditionsMove};
ghost use Rattle.ess_refine_laws.specs.Copies.{CopiesServe};
ghost use Rattle.ess_refine_laws.specs.ExtremeAlternatives.{AlternativesServe};
ghost use Rattle.ess_refine_laws.specs.IndexedLists.{ListsAreIndices};
ghost use Rattle.ess_refine_laws.specs.SparingRules.{RulesSpare};
ghost use Rattle.ess_refine_laws.specs.RecordNames.{NamesOverRecordsKeep};
ghost use Rattle.ess_refine_laws.specs.ItemsOnce.{ItemsOnceOffer};
ghost use Rattle.ess_refine_laws.specs.Spelling.{NumbersAreSpared};
ghost use Rattle.ess_refine_laws.specs.SpellingEnds.{SpellingBeginsAndEnds};
ghost use Rattle.ess_refine_laws.specs.ScopesOfRules.{RulesKeepScopes};
ghost use Rattle.ess_refine_laws.specs.TypesOfRules.{RulesKeepTypes};
ghost use Rattle.ess_refine_laws.specs.JudgedTrees.{TypedTreesAreJudged};

/// A refined number becomes one that is there wherever the names and cells in it are, and that is the same where the old one
/// has a value.
pub fn everywhere_serves()
    ensures { EverywhereServes }
{}

/// A condition that reads cells leaves the generators of a fold for its body, and the fold is kept where its comprehension has a
/// value. Refined numbers stay refined where they become ones that are there everywhere.
pub fn conditions_leave()
    ensures { ConditionsLeave }
{}

/// Each rule that needs no kind keeps what it rewrites where it has what it counts on, and so does the first one that fires.
pub fn all_rules_keep()
    ensures { AllRulesKeep }
{}

/// In a judged tree of a scalar that isn't refined some rule fires at some part, or a part is left to a kind or to a lookup.
pub fn trees_make_progress()
    ensures { TreesMakeProgress }
{}

/// A part that keeps its type keeps the type of the whole, and so do any number of rules that keep what they rewrite with its
/// type, each at some part.
pub fn types_stay()
    ensures { WholesKeepTypes }
{}

/// A part that keeps its type and its marks keeps the marks of the whole, and so do any number of rules that do, each at some part.
pub fn marks_stay()
    ensures { WholesKeepMarks }
{}

/// A part outside of views that keeps its scope keeps that of the whole, and so do any number of such rules, each at some part.
pub fn scopes_stay()
    ensures { WholesKeepScopes }
{}

/// A part that spells no new numbers but 0, 1 and 2 makes the whole spell none, and so do any number of such rules, each at some
/// part.
pub fn constants_stay()
    ensures { WholesKeepConstants }
{}

/// `min` and `max` over a condition that reads cells keep what they are with the greatest or least of all for what it leaves out.
pub fn extremes_keep()
    ensures { ExtremesKeep }
{}

/// A condition that reads cells may move behind the generators after it under `min` and `max`.
pub fn conditions_move()
    ensures { ConditionsMove }
{}

/// What a condition leaves out of `min` and `max` may be said by a copy with bound names of its own.
pub fn copies_serve()
    ensures { CopiesServe }
{}

/// `min` and `max` of a term with several alternatives are those of one number for each. A comprehension over a source with several
/// alternatives has as many.
pub fn alternatives_serve()
    ensures { AlternativesServe }
{}

/// A list literal is what its indices pick, in order.
pub fn lists_are_indices()
    ensures { ListsAreIndices }
{}

/// Rules that keep whole operands spell no new numbers but 0, 1 and 2.
pub fn rules_spare()
    ensures { RulesSpare }
{}

/// A name over a record of domains may run over the records of new names over the components.
pub fn names_over_records_keep()
    ensures { NamesOverRecordsKeep }
{}

/// The set of the items of a comprehension offers each item once, generator by generator over domains of atoms.
pub fn items_are_offered_once()
    ensures { ItemsOnceOffer }
{}

/// Every rule spells no new numbers but 0 and 1, where sets and multisets are counted wherever they stand, and so do any number of
/// rules at parts.
pub fn numbers_are_spared()
    ensures { NumbersAreSpared }
{}

/// A tree may spell its constants, as a specification counts them, and spells what it may, as a model counts it: so the last tree of a
/// chain of rules that spell no more spells constants of the first one, 0 and 1.
pub fn spelling_begins_and_ends()
    ensures { SpellingBeginsAndEnds }
{}

/// Each rule keeps what is in scope, where the names that it takes are new, and terms that it puts for names are apart.
pub fn rules_keep_scopes()
    ensures { RulesKeepScopes }
{}

/// Rules on folds, tuples, comparisons, lists and sizes keep types.
pub fn rules_keep_types()
    ensures { RulesKeepTypes }
{}

/// A typed tree with right marks and told types is judged, as progress counts on it, and one of a scalar makes progress.
pub fn typed_trees_are_judged()
    ensures { TypedTreesAreJudged }
{}
