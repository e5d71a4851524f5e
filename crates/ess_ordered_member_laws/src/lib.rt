//! Trees of a membership have no comprehension whose items' order counts, and none over a source whose items are counted.
#![tactic(auto)]

pub mod laws;
