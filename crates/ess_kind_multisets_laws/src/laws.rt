//! Laws of steps of rules that read views of multisets, each the contract of a function that does nothing.

ghost use Rattle.ess_kind_multisets_laws.specs.MultisetsAtHand.{MultisetRulesHaveWhatTheyAsk, MultisetsAreListed};

/// Of a typed tree each part of which has a value, where views are those of judged domains and their structures are met, what is counted on
/// follows by the rules of membership, sizes and frequencies of multisets; so they keep what they rewrite.
pub fn multiset_rules_have_what_they_ask()
    ensures { MultisetRulesHaveWhatTheyAsk }
{}

/// So does what the listing of such a view counts on, and that of the set of its members, where the names are new.
pub fn views_of_multisets_are_listed()
    ensures { MultisetsAreListed }
{}
