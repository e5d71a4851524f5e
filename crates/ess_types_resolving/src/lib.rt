//! Expressions, domains and statements, resolved under the types of names.
#![tactic(auto)]

mod domain_rows;
mod domains;
mod expressions;
mod generators;
mod indices;
mod literals;
mod nodes;
mod rows;
mod statements;
mod steps;
mod types;
mod views;

pub use domains::resolve_dom;
pub use expressions::resolve_ex;
pub use statements::resolve_stm;
