//! Domains of judged finds and givens, resolved, are domains of views.
#![tactic(auto)]

pub mod laws;
