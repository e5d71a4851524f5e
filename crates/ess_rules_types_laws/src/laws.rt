//! Laws of types and marks of rules, each the contract of a function that does nothing.

ghost use Rattle.ess_rules_types_laws.specs.TypesOfOthers.{OtherRulesKeepTypes};
ghost use Rattle.ess_rules_types_laws.specs.TypesOfSources.{SourceRulesKeepTypes};

/// Rules that put terms for a name keep types: those over comprehensions, over literals and over what offers a listing.
pub fn source_rules_keep_types()
    ensures { SourceRulesKeepTypes }
{}

/// Rules of components and fields, of names over tuples and records, of matrices and of conditions keep types.
pub fn other_rules_keep_types()
    ensures { OtherRulesKeepTypes }
{}
