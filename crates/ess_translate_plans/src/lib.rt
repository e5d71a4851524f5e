//! The plans of a header: of each given and find the tables of each of its representations by name, of each given enumerated type
//! the cell for its number of values. They are known before any parameter is read.
#![tactic(auto)]

mod declaring;
mod naming;
mod plans;
mod requests;
mod taken;

pub use declaring::declares;
pub use plans::{Plan, Side, TableName, ValuePlan};
pub use requests::{all_plans, plans_of};
pub use taken::declared_names;
