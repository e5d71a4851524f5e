//! Literals that values are printed as, as definitions and lemmas.
//!
//! What a printed value is worth is said by `laws`: the literal that is printed for a value has that value, in each type in
//! which some literal has it. So a file of printed values is read back as the same values.
#![tactic(auto)]

pub mod laws;
