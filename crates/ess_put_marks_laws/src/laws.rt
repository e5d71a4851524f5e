//! Laws of marks of rules, each the contract of a function that does nothing.

ghost use Rattle.ess_put_marks_laws.specs.MarksOfTerms.{SourceRulesKeepMarks};
ghost use Rattle.ess_put_marks_laws.specs.MarksOfConditions.{ConditionRulesKeepMarks};
ghost use Rattle.ess_put_marks_laws.specs.MarksOfOthers.{PartRulesKeepMarks};

/// Rules that put terms for a name keep marks: those over comprehensions, over literals and over what offers a listing.
pub fn source_rules_keep_marks()
    ensures { SourceRulesKeepMarks }
{}

/// Rules of names over tuples and records, of components, fields and items keep marks.
pub fn part_rules_keep_marks()
    ensures { PartRulesKeepMarks }
{}

/// Rules of conditions that read cells keep marks.
pub fn condition_rules_keep_marks()
    ensures { ConditionRulesKeepMarks }
{}
