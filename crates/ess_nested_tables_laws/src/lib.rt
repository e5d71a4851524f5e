//! The declared tables of sets of any nesting over written numbers and truth values: their bounds are arithmetic of numerals, which models
//! keep as they are, which are small where the numbers of the specification are, and which spell the numbers of the domain.
#![tactic(auto)]
