//! Models in Essence Prime evaluated over tables: their expressions, and the members of declared domains.
#![tactic(auto)]

mod cells;
mod closing;
mod evaluating;
mod generating;
mod knowing;
mod known;
mod members;
mod names;
mod operators;
mod powers;
mod ranging;
mod under;

pub use closing::{EvalNo, axis, closed, inside, runs};
pub use eprime_eval_scalars::Run;
pub(crate) use eprime_eval_scalars::{NoMemory, Row, Scalar, Stop};
pub use members::{Closed, numbers_of};
pub use under::{Under, closed_in, truth_in, with_tables};
