//! Laws of steps of rules that read views, each the contract of a function that does nothing.

ghost use Rattle.ess_kind_views_laws.specs.PartsAtHand.{PartRulesHaveWhatTheyAsk, KeptViewsAreListed};
ghost use Rattle.ess_kind_views_laws.specs.TuplesAtHand.{TupleRulesHaveWhatTheyAsk, ViewsByArgumentAreListed};
ghost use Rattle.ess_kind_views_laws.specs.TruthsAtHand.{TruthRulesHaveWhatTheyAsk, TotalTreesHaveOwnValues};
ghost use Rattle.ess_kind_views_laws.specs.FoldsAtHand.{FoldsHaveWhatTheyAsk};
ghost use Rattle.ess_kind_views_laws.specs.OffersApart.{OffersAreApart};

/// Of a tree with marks, where views are those of judged domains and their structures are met, what is counted on follows by the rule of
/// components; and where tables are canonical by that of views that are kept as another value. So they keep what they rewrite.
pub fn part_rules_have_what_they_ask()
    ensures { PartRulesHaveWhatTheyAsk }
{}

/// So does what the listing of a view counts on that is kept as another value.
pub fn kept_views_are_listed()
    ensures { KeptViewsAreListed }
{}

/// Of a typed tree each part of which has a value, where views are those of judged domains and their structures are met, what is counted on
/// follows by the rules of relations that are kept by cells, and of functions whose arguments are tuples; so they keep what they rewrite.
pub fn tuple_rules_have_what_they_ask()
    ensures { TupleRulesHaveWhatTheyAsk }
{}

/// So does what the listing of a view counts on that is kept by indices: of matrices, functions and relations, where the names are new.
pub fn views_by_argument_are_listed()
    ensures { ViewsByArgumentAreListed }
{}

/// Of a tree with marks that has a value by itself, where views are those of judged domains and their structures are met, what is counted on
/// follows by the rules of items of matrices and of results of total functions at places for truth values; so they keep what they rewrite.
pub fn truth_rules_have_what_they_ask()
    ensures { TruthRulesHaveWhatTheyAsk }
{}

/// A Boolean that is total but for plain operators in natural places has a value by itself where its operands have values.
pub fn total_trees_have_own_values()
    ensures { TotalTreesHaveOwnValues }
{}

/// Of a tree each part of which has a value, where views are those of judged domains and their structures are met, what is counted on follows
/// by the rules of folds over views of matrices, multisets, functions, relations and partitions, where names are new and apart, and where
/// tables are canonical of those that are kept as another value; so they keep what they rewrite.
pub fn folds_have_what_they_ask()
    ensures { FoldsHaveWhatTheyAsk }
{}

/// The names of what a view offers are apart from those of what stands behind it, where the listing takes new names: of views that aren't
/// kept as another value.
pub fn names_of_offers_are_apart()
    ensures { OffersAreApart }
{}
