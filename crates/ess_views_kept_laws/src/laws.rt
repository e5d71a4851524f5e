//! Laws of what views offer, each the contract of a function that does nothing.

ghost use Rattle.ess_views_kept_laws.specs.ComponentsKept.{ComponentViewsKeep};
ghost use Rattle.ess_views_kept_laws.specs.ItemsKept.{ItemViewsKeep};
ghost use Rattle.ess_views_kept_laws.specs.ChildrenKept.{ChildrenServe};
ghost use Rattle.ess_views_kept_laws.specs.MultisetsKept.{MultisetsServe};
ghost use Rattle.ess_views_kept_laws.specs.MultisetsListed.{NumberedMembersAreListed, SlottedMembersAreListed, MembersOnceAreListed};
ghost use Rattle.ess_views_kept_laws.specs.PartitionsKept.{PartitionsServe};

/// A component of a view of a tuple, and a field of a view of a record, means what the view of the child does, and tables that
/// meet the structure of the one meet that of the other: where each child's kinds are ones for its domain, and the node is
/// marked as one with a truth value only where the child's domain is bool.
pub fn component_views_keep()
    ensures { ComponentViewsKeep }
{}

/// An item of a view of a matrix means what the view at its index does, and tables that meet the structure of the one meet that
/// of the other: where the value of the index is a member of the first index domain, and the node is marked as one with a truth
/// value only where the items' domain is bool.
pub fn item_views_keep()
    ensures { ItemViewsKeep }
{}

/// A view that is kept as another value has the members of the child's view, in their order: a relation those of a set, a function
/// those of a relation, a partition those of a set. So it offers them, and `in` and sizes may ask the child; tables that meet its
/// structure meet that of the child's view. So it is where the domain of the child's view is the one that the layer says, and holds
/// what the child stands for.
pub fn children_serve()
    ensures { ChildrenServe }
{}

/// Of a view of a multiset that has a number for each member of the inner domain, where these can be listed, the size is the sum of
/// the numbers, a frequency the sum of those at the members that are the term, if that has a value, and a term is a member where the
/// number at one that is the term is above 0. The size of a view in slots up to a marker is the marker.
pub fn multisets_serve()
    ensures { MultisetsServe }
{}

/// The number of parts of a view of a partition that is kept by the number of each member's part is the cell that says it, and a term
/// takes part in it where a member of the inner domain is the term.
pub fn partitions_serve()
    ensures { PartitionsServe }
{}

/// A view of a multiset that has a number for each member of the inner domain, where these can be listed, offers its members in
/// their order, each as often as it is there: under an expression that says a number which none is there more often than. Tables
/// that meet its structure meet that of the listing.
pub fn numbered_members_are_listed()
    ensures { NumberedMembersAreListed }
{}

/// A view of a multiset in slots up to a marker offers the views in these, under an expression that says how many slots there are:
/// they list the members of the multiset, and tables that meet its structure meet theirs.
pub fn slotted_members_are_listed()
    ensures { SlottedMembersAreListed }
{}

/// The set of a multiset whose view has a number for each member of the inner domain, where these can be listed and differ, offers
/// the members whose number is above 0; tables that meet the structure of the view meet that of the listing.
pub fn members_once_are_listed()
    ensures { MembersOnceAreListed }
{}
