//! Laws of types and marks of these rules, each the contract of a function that does nothing.

ghost use Rattle.ess_numbered_types_laws.specs.NumberedTyped.{NumberRulesKeepTypes, NumberRulesKeepMarks};

/// Rules of comprehensions over sources whose items are counted keep the type at their root, where they have what they ask.
pub fn number_rules_keep_types()
    ensures { NumberRulesKeepTypes }
{}

/// And marks, where what they rewrite has a type.
pub fn number_rules_keep_marks()
    ensures { NumberRulesKeepMarks }
{}
