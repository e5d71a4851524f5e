//! Laws of marks of rules, each the contract of a function that does nothing.

ghost use Rattle.ess_rules_marks_laws.specs.MarksOfRules.{MarkingRulesKeepMarks};

/// Rules of folds, literals, signs, membership, sizes and lists keep marks, where the name that they bind is new.
pub fn marking_rules_keep_marks()
    ensures { MarkingRulesKeepMarks }
{}
