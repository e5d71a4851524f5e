//! Literals of members: whatever its type, a member of a domain is printed as a literal that has it, and that is read back.
#![tactic(auto)]

pub mod laws;
