//! Laws of chains of rules, each the contract of a function that does nothing.

ghost use Rattle.ess_rules_chain_laws.specs.MarkedChains.{ChainsKeepMarks};

/// Any number of rules, each at some part where it has what it asks, keep meanings, types and marks, from a judged expression on.
pub fn chains_keep_marks()
    ensures { ChainsKeepMarks }
{}
