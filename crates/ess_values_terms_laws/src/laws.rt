//! Laws of rules and values, each the contract of a function that does nothing.

ghost use Rattle.ess_values_terms_laws.specs.TermsKeepValues.{TermsKeepValues};

/// 17 rules of comparisons, membership, sizes and lists keep at their root that each part of the tree has a value wherever its context
/// holds, but for numbers in natural places, where they keep the meaning and the name that they bind is new.
pub fn terms_keep_values()
    ensures { TermsKeepValues }
{}
