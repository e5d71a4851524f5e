//! Values of a domain's form: what tables stand for is one, so types can be put back into it.
#![tactic(auto)]

pub mod laws;
