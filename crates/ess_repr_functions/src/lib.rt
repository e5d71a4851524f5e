//! One layer of functions: by argument, with flags or not, and as the relation of the pairs. Each call answers for a closed domain
//! of functions; over any other domain it answers nothing.
#![tactic(auto)]

mod built;
mod contents;
mod forms;
mod lookup;
mod tables_down;
mod tables_up;

pub use contents::parts;
pub use tables_down::down;
pub use tables_up::up;
