//! Expressions, domains and statements with lettings put in, and the lettings behind a statement.
#![tactic(auto)]

mod attributes;
mod domain_rows;
mod domains;
mod expressions;
mod generators;
mod indices;
mod kept;
mod put_statement;
mod ranges;
mod rows;
mod statements;

pub use domains::put_dom;
pub use expressions::put_ex;
pub use put_statement::put_stm;
pub use statements::lettings_after;
