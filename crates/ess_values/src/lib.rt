//! Values: their order, and their canonical forms.
#![tactic(auto)]

mod collections;
mod comparing;
mod functions;
mod joining;
mod literals;
mod naming;
mod partitions;
mod printing;
mod runs;
mod shapes;
mod sorting;

pub use collections::{mset_of, set_of};
pub use comparing::order;
pub use functions::{FunctionNo, function_of};
pub use literals::{ValNo, val_of};
pub use partitions::{PartitionNo, partition_of};
pub use printing::print_val;
