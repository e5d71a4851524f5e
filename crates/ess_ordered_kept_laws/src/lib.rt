//! Rules of comprehensions whose items have an order: what each counts on, and that it keeps what it rewrites.
#![tactic(auto)]

pub mod laws;
