//! Laws of types and marks of rules that read views of sets, each the contract of a function that does nothing.

ghost use Rattle.ess_kind_types_laws.specs.SetChainsTyped.{SetChainsKeepTypes};
ghost use Rattle.ess_kind_types_laws.specs.SetsTyped.{SetRulesKeepTypes, SetRulesKeepMarks};

/// Rules of views of sets keep the type at their root, where tables have the types of what their cells hold, numbers in domains are ints,
/// and names are apart. Of slots with a dummy the cells are ints: of a named type no type of the table serves.
pub fn set_rules_keep_types()
    ensures { SetRulesKeepTypes }
{}

/// And marks, where what they rewrite has a type.
pub fn set_rules_keep_marks()
    ensures { SetRulesKeepMarks }
{}

/// So do chains of such rules, each at some part, with other rewriting between them that keeps both.
pub fn set_chains_keep_types()
    ensures { SetChainsKeepTypes }
{}
