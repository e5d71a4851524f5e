//! Laws of types and marks of rules of kinds, each the contract of a function that does nothing.

ghost use Rattle.ess_kinds_typed_laws.specs.FoldsTyped.{FoldsKeepTypes, FoldsKeepMarks};
ghost use Rattle.ess_kinds_typed_laws.specs.KindsTyped.{KindRulesKeepTypes, KindRulesKeepMarks};
ghost use Rattle.ess_kinds_typed_laws.specs.PicksTyped.{PickRulesKeepTypes, PickRulesKeepMarks};

/// Rules of kinds that offer no listing keep the type at their root, where tables of numbers hold ints, sizes are of ints, and new names
/// are new.
pub fn kind_rules_keep_types()
    ensures { KindRulesKeepTypes }
{}

/// And marks, where what they rewrite has a type.
pub fn kind_rules_keep_marks()
    ensures { KindRulesKeepMarks }
{}

/// Folds over views of matrices, multisets, functions, relations and partitions keep the type at their root, where names of what is
/// offered are apart, and new ones are new.
pub fn folds_keep_types()
    ensures { FoldsKeepTypes }
{}

/// And marks, where what they rewrite has a type.
pub fn folds_keep_marks()
    ensures { FoldsKeepMarks }
{}

/// Rules of what is picked keep the type of a truth value or number at their root, where each alternative of the lookup has the type of
/// what is picked.
pub fn pick_rules_keep_types()
    ensures { PickRulesKeepTypes }
{}

/// And marks, where what is looked up has them.
pub fn pick_rules_keep_marks()
    ensures { PickRulesKeepMarks }
{}
