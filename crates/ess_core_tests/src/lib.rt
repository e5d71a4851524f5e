//! What a caller sees of small trees: which are equal, what their parts are and how these change, and that copies equal
//! their sources. The crate has tests alone.
#![tactic(auto)]

#[cfg(test)]
mod tests;
