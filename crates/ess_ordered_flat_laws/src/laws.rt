//! Laws of flat trees and of comprehensions where the order of items counts, each the contract of a function that does nothing.

ghost use Rattle.ess_ordered_flat_laws.specs.FlatOrdered.{FlatTreesHaveNoOrder};
ghost use Rattle.ess_ordered_flat_laws.specs.FlatNumbered.{FlatTreesHaveNoNumbers};

/// At a flat tree over cells no rule of comprehensions whose items have an order fires.
pub fn flat_trees_have_no_order()
    ensures { FlatTreesHaveNoOrder }
{}

/// Nor does a rule of sources whose items are counted.
pub fn flat_trees_have_no_numbers()
    ensures { FlatTreesHaveNoNumbers }
{}
