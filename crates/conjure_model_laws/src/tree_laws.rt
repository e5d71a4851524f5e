//! Laws of the trees on the way from a constraint to its rule, each the contract of a function that does nothing.

ghost use Rattle.conjure_model_laws.specs.TreeLaws.{NamesPrinted, NamesToldApart, ShownStands, ViewsHaveValues};
ghost use Rattle.conjure_model_laws.specs.TreeLaws.{WrittenDomainsStand, WrittenTreesStand};

/// A tree of a specification means with its bound names told apart what it meant, in every env, and is kept, where the names that it
/// doesn't bind aren't reserved ones, as none of a specification is.
pub fn told_apart_keeps()
    ensures { NamesToldApart }
{}

/// What is shown of a tree means over tables what the tree means over values, and its structures are met, where views and positions have
/// the values of the names that they stand for.
pub fn shown_stands_for_the_tree()
    ensures { ShownStands }
{}

/// A refined tree means with printed names what it meant, in every env, where the names that it doesn't bind are taken ones or none.
/// Printed names differ, and none is taken.
pub fn printed_means_the_same()
    ensures { NamesPrinted }
{}

/// A constraint, told apart and shown, means over tables what it means over values, and so does what is printed for a refined tree that
/// rules lead to from there.
pub fn written_trees_stand()
    ensures { WrittenTreesStand }
{}

/// A declared domain, told apart and shown, is over tables what it is over values.
pub fn written_domains_stand()
    ensures { WrittenDomainsStand }
{}

/// The view of a given or find by each of its plans has over tables its value, and its structures are met.
pub fn views_have_values()
    ensures { ViewsHaveValues }
{}
