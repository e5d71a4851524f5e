//! The conditions under which an operator has a value where its operands have values, and what is built of conditions.
#![tactic(auto)]

mod conditions;
mod indices;
mod joining;
mod literals;
mod operators;
mod places;

pub use joining::{all_of, chained, every, given_that, one_gen, summed};
pub use literals::matrix_conditions;
pub use operators::own;
pub use places::{Rules, opens, own_at, passes};
