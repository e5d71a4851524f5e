//! Laws of steps of rules that read views of sets, each the contract of a function that does nothing.

ghost use Rattle.ess_kind_steps_laws.specs.JudgedItems.{ItemsOfSetsAreJudged};
ghost use Rattle.ess_kind_steps_laws.specs.SetsAtHand.{SetRulesHaveWhatTheyAsk};

/// Of a typed tree each part of which has a value, where tables meet the structures and views are those of judged domains, each rule of
/// views of sets that fires has what it counts on; so it keeps what it rewrites.
pub fn set_rules_have_what_they_ask()
    ensures { SetRulesHaveWhatTheyAsk }
{}

/// What a view of a set of a judged domain offers in the place of a member is a view of a judged domain, whatever value the new name has,
/// or that name.
pub fn items_of_sets_are_judged()
    ensures { ItemsOfSetsAreJudged }
{}
