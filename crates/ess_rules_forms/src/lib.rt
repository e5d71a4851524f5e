//! What rules share: the forms of roots that they rewrite, and the trees that they build.
#![tactic(auto)]

mod alternatives;
mod apart;
mod building;
mod forms;
mod types;

pub use alternatives::Alternative;
pub use apart::are_apart;
pub use building::{
    both, compared, every, every_over, frequency, is_in, lie_together, negated, some, some_over,
};
pub use forms::{is_nothing, only_in, pair_in, plain_pair, plain_word, truth_pair};
pub use types::{is_truth, seen_type};
