//! Laws of types and marks of these rules, each the contract of a function that does nothing.

ghost use Rattle.ess_ordered_types_laws.specs.OrderedTyped.{OrderedRulesKeepTypes, OrderedRulesKeepMarks};
ghost use Rattle.ess_ordered_types_laws.specs.GatheringTyped.{GatheringKeepsTypes, GatheringKeepsMarks};

/// Rules of comprehensions whose items have an order keep the type at their root, where they have what they ask.
pub fn ordered_rules_keep_types()
    ensures { OrderedRulesKeepTypes }
{}

/// And marks, where what they rewrite has a type.
pub fn ordered_rules_keep_marks()
    ensures { OrderedRulesKeepMarks }
{}

/// Gathering conditions keeps the type, where each uses no name that is bound behind it.
pub fn gathering_keeps_types()
    ensures { GatheringKeepsTypes }
{}

/// And marks, where what is rewritten has a type and bounds are numbers.
pub fn gathering_keeps_marks()
    ensures { GatheringKeepsMarks }
{}
