//! The law of refined trees over views, the contract of a function that does nothing.

ghost use Rattle.ess_seen_ended_laws.specs.Laws.{SeenTreesEnd};

/// In a refined tree over views no view, no source and no set is left.
pub fn seen_trees_end()
    ensures { SeenTreesEnd }
{}
