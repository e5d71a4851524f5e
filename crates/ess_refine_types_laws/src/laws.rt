//! Laws of the types of rules, each the contract of a function that does nothing.

ghost use Rattle.ess_refine_types_laws.specs.TypesOfContainers.{ContainerRulesKeepTypes};
ghost use Rattle.ess_refine_types_laws.specs.MarksOfJudged.{JudgedTreesHaveMarks};
ghost use Rattle.ess_refine_types_laws.specs.MarksOfContainers.{ContainerRulesKeepMarks};
ghost use Rattle.ess_refine_types_laws.specs.MarksOfTyped.{TypedTreesHaveMarks};
ghost use Rattle.ess_refine_types_laws.specs.TypesOfListed.{LiteralRulesKeepTypes};
ghost use Rattle.ess_refine_types_laws.specs.TypeNames.{TypesNeedTheirNames};

/// A type depends on the names that a tree uses and on the tables of its cells alone.
pub fn types_need_their_names()
    ensures { TypesNeedTheirNames }
{}

/// Rules of membership, inclusion, equality, frequencies and lists keep types, where the name that they bind is new.
pub fn rules_keep_types()
    ensures { ContainerRulesKeepTypes }
{}

/// A resolved tree whose parts have types has the right marks.
pub fn typed_trees_have_marks()
    ensures { TypedTreesHaveMarks }
{}

/// A judged expression has, resolved, a type and the right mark at each node, and members at each source.
pub fn judged_trees_have_marks()
    ensures { JudgedTreesHaveMarks }
{}

/// Rules of membership, inclusion and equality keep marks, where the name that they bind is new; and a new name changes no marks.
pub fn rules_keep_marks()
    ensures { ContainerRulesKeepMarks }
{}

/// Rules of `in`, `freq` and `allDiff` on literals keep types.
pub fn literal_rules_keep_types()
    ensures { LiteralRulesKeepTypes }
{}
