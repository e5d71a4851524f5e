//! What only Rust can say: trees as they are read, against trees built by hand, one for each reader, and the text of a tree that
//! no text has. The crate has tests alone.
#![tactic(auto)]

#[cfg(test)]
mod models;
#[cfg(test)]
mod specifications;
#[cfg(test)]
mod tests;
