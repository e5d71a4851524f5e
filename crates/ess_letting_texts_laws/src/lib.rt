//! Texts of lettings of values: what is printed for several values, one letting after the other, is a file of their lettings.
#![tactic(auto)]

pub mod laws;
