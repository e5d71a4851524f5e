//! Folds over a source that offers alternatives, over nodes: the items of each alternative stand in the place of the name. Each call is
//! the rule of the definitions that it computes; it answers nothing where the rule doesn't fire.
#![tactic(auto)]

pub mod alternatives;
mod extremes;
pub mod once;
mod splitting;

pub use alternatives::put_alternative;
pub use extremes::extreme_alternatives;
pub use once::{OnceNames, items_once};
pub use splitting::{source_alone, source_parts};
