//! Steps of rules that read views of tuples, records, matrices, functions and relations, of views that are kept as another value, and of folds
//! over views.
#![tactic(auto)]

pub mod laws;
