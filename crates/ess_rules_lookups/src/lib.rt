//! The rules of what is picked out of a term: a lookup, a comprehension that has the picked value as its one item, and operators on
//! the picked value.
#![tactic(auto)]

mod functions;
mod operands;
mod picked;
mod selecting;

pub use functions::{function_lookup, unmarked};
pub use operands::{nth, put_nth};
pub use picked::picking;
pub use selecting::{is_plain, lookup_through, select, select_whole, takes, with_item};
