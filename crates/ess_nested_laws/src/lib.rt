//! Domains of sets of any nesting over written numbers and truth values, and how representations keep them.
#![tactic(auto)]
