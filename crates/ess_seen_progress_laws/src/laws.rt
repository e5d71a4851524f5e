//! The law of rules that fire as long as something abstract is left in a tree over views, the contract of a function that does nothing.

ghost use Rattle.ess_seen_progress_laws.specs.Laws.{SeenTreesMoveOn};

/// In a tree over views nothing abstract is left, or a rule fires at a part of it.
pub fn seen_trees_move_on()
    ensures { SeenTreesMoveOn }
{}
