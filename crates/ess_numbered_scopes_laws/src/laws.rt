//! A law of scopes of these rules, the contract of a function that does nothing.

ghost use Rattle.ess_numbered_scopes_laws.specs.NumberedScopes.{NumberRulesKeepScopes};

/// Rules of comprehensions over sources whose items are counted keep the scope, where the names that they take are new.
pub fn number_rules_keep_scopes()
    ensures { NumberRulesKeepScopes }
{}
