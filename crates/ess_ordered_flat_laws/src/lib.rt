//! Rules of comprehensions whose items have an order, and of sources whose items are counted, at flat trees: none fires.
#![tactic(auto)]

pub mod laws;
