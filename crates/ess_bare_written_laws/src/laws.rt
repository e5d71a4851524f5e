//! Laws of what is written for bare trees, each the contract of a function that does nothing.

ghost use Rattle.ess_bare_written_laws.specs.Laws.{BareTreesAreWritten, EndedTreesAreWritten};

/// What is written for a bare tree in which no bound name hides another one means what the tree means, and is a model's own where the
/// tables are declared.
pub fn bare_trees_are_written()
    ensures { BareTreesAreWritten }
{}

/// So it is with each tree that rules end in: sums may have conditions there, and folds may be over lists of items.
pub fn ended_trees_are_written()
    ensures { EndedTreesAreWritten }
{}
