//! Nodes and domains with other parts: the words of a tree, copied, with operands and domains that a pass has made. Each call says
//! which tree of the definitions it answers.
#![tactic(auto)]

mod attributed;
mod domains;
mod generators;
mod nodes;

pub use attributed::{function_domain, mset_domain, partition_domain, relation_domain, set_domain};
pub use domains::{int_domain, matrix_domain, named_domain, record_domain, tuple_domain};
pub use generators::{condition_on, over_domain, over_value};
pub use nodes::{cell_at, matrix_on, operator, view, view_at};
