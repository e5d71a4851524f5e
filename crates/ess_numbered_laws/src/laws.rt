//! Laws of lists whose items are counted, each the contract of a function that does nothing.

ghost use Rattle.ess_numbered_laws.specs.BoundLaws.{MostItemsBound};
ghost use Rattle.ess_numbered_laws.specs.CountedLaws.{EqualitiesKeep, ItemsOfListsKeep, NumberedListsKeep, NumberedTermsKeep, PairsKeep};
ghost use Rattle.ess_numbered_laws.specs.ListedLaws.{ListsHaveTheItems, PickedListsKeep};
ghost use Rattle.ess_numbered_laws.specs.OrderLaws.{LowerByNumber, OrderKeeps};

/// A list with no more items than a bound says is the list of its items by their numbers.
pub fn numbered_terms_keep()
    ensures { NumberedTermsKeep }
{}

/// So a comprehension keeps its items, in order, whose first generator behind plain ones runs over such a list.
pub fn numbered_lists_keep()
    ensures { NumberedListsKeep }
{}

/// An item of such a comprehension stays what it is.
pub fn items_of_lists_keep()
    ensures { ItemsOfListsKeep }
{}

/// So does a pair between whose sides order counts, where one of these is such a comprehension.
pub fn pairs_keep()
    ensures { PairsKeep }
{}

/// A comprehension equals a list, or a matrix whose index domain is told, where it has as many items, and equal ones at each number.
pub fn equalities_keep()
    ensures { EqualitiesKeep }
{}

/// A list is lower than another one by the first number at which their items differ, or where it begins the other one.
pub fn lists_are_lower_by_number()
    ensures { LowerByNumber }
{}

/// A sign between lists keeps its meaning where it is said by the numbers of their items.
pub fn signs_between_lists_keep()
    ensures { OrderKeeps }
{}

/// A list has no more items than is said of it, where that has a value.
pub fn lists_are_bounded()
    ensures { MostItemsBound }
{}

/// What is picked has the same items, in order, where lists take the place of matrices that aren't numbered from 1.
pub fn lists_have_the_items()
    ensures { ListsHaveTheItems }
{}

/// So a comprehension over it stays what it is, where order counts.
pub fn picked_lists_keep()
    ensures { PickedListsKeep }
{}
