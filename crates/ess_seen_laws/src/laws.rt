//! Laws of trees over views of nested sets, each the contract of a function that does nothing.

ghost use Rattle.ess_seen_laws.specs.Laws.{PartsOfSeenTrees, SeenTreesHaveTypes, SeenTreesStayAmongMore, MembersMayBePut, SetsStayAsTheyAre, NamesOfSeenTrees};

/// A part of such a tree is a scalar that may be replaced, a set, a list, or one at which no rule fires.
pub fn parts_of_seen_trees()
    ensures { PartsOfSeenTrees }
{}

/// Types of such trees are those of marks and kinds.
pub fn seen_trees_have_types()
    ensures { SeenTreesHaveTypes }
{}

/// Such a tree is one among more names too.
pub fn seen_trees_stay_among_more()
    ensures { SeenTreesStayAmongMore }
{}

/// A member may be put in the place of a name that was bound over members of its kind.
pub fn members_may_be_put()
    ensures { MembersMayBePut }
{}

/// Sets are told apart as they are.
pub fn sets_stay_as_they_are()
    ensures { SetsStayAsTheyAre }
{}

/// Free names of such a tree are bound around it, and bound ones are new.
pub fn names_of_seen_trees()
    ensures { NamesOfSeenTrees }
{}
