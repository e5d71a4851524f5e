//! Laws of names along rules in trees over views, each the contract of a function that does nothing.

ghost use Rattle.ess_seen_names_laws.specs.Laws.{SeenRulesKeepNames, NamesAtParts};

/// Rules that fire in trees over views keep scopes, spell no numbers but 0, 1 and 2, and bring no names but the one that they take.
pub fn seen_rules_keep_names()
    ensures { SeenRulesKeepNames }
{}

/// So they do at parts.
pub fn names_at_parts()
    ensures { NamesAtParts }
{}
