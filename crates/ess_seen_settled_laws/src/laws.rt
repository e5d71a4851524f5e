//! The law of settled trees over views, the contract of a function that does nothing.

ghost use Rattle.ess_seen_settled_laws.specs.Laws.{SettledTreesAreRefined};

/// Where no rule that is asked fires at any part of a tree over views, nothing abstract is left in it; so refining one is never given up.
pub fn settled_trees_are_refined()
    ensures { SettledTreesAreRefined }
{}
