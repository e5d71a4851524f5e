//! What judging asks of an expression or of a domain in its scope, found in one pass over it.
#![tactic(auto)]

mod attributes;
mod bounds;
mod comprehensions;
mod domains;
mod expressions;
mod fields;
mod finishing;
mod finiteness;
mod found;
mod gathered;
mod generators;
mod indices;
mod judged;
mod layers;
mod matrices;
mod nodes;
mod numbers;
mod scope;
mod typing;

pub use bounds::Bound;
pub use domains::judge_dom;
pub use expressions::judge;
pub use finiteness::{is_finite, needs_known_slots};
pub use found::{Found, all_well};
pub use judged::Judged;
pub use scope::{Scope, knows_name};
