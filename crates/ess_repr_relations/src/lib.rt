//! One layer of relations and partitions: the tuples that occur, the numbers of parts, or the set of tuples or parts.
#![tactic(auto)]

mod conversions;
mod kinds;
mod numbers;
mod parting;
mod partition_kinds;
mod relation_kinds;
mod tuples;

pub use conversions::{only_tables, partition_value_of, relation_value_of};
pub use kinds::{down, parts, up};
pub use numbers::number_tables;
pub use parting::numbered_partition;
pub use tuples::{matrix_relation, matrix_tables, tuple_members};
