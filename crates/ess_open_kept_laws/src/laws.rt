//! Laws of these rules, each the contract of a function that does nothing.

ghost use Rattle.ess_open_kept_laws.specs.OpenAsks.{OpenRulesKeep};

/// Each of these rules keeps what it rewrites where it has what it counts on, and so does the first one that fires; and so does each rule of
/// the list in which they stand with those that read the kind of a view.
pub fn open_rules_keep()
    ensures { OpenRulesKeep }
{}
