//! Laws of values under rules that read views of sets, each the contract of a function that does nothing.

ghost use Rattle.ess_kind_values_laws.specs.SetsKeepValues.{SetRulesKeepValues};

/// Rules of views of sets keep at their root that each part of the tree has a value wherever its context holds, where tables meet the
/// structures and views are those of judged domains.
pub fn set_rules_keep_values()
    ensures { SetRulesKeepValues }
{}
