//! Laws of values of trees over views of sets, each the contract of a function that does nothing.

ghost use Rattle.ess_seen_values_laws.specs.Laws.{SeenRulesKeep, PartsOfSeenTrees};

/// Each rule that fires at a tree over views of sets keeps what the tree means, that tables meet its structures, and its values.
pub fn seen_rules_keep()
    ensures { SeenRulesKeep }
{}

/// Names have values of their types wherever the context of a part holds.
pub fn parts_of_seen_trees()
    ensures { PartsOfSeenTrees }
{}
