//! The law of flat trees over scalars that may be values of named types, the contract of a function that does nothing.

ghost use Rattle.ess_named_flat_laws.specs.Laws.{NamedFlatTreesStand};

/// With cells and positions in the place of names such a tree means the same and is flat over cells; and the test says which they are.
pub fn named_flat_trees_stand()
    ensures { NamedFlatTreesStand }
{}
