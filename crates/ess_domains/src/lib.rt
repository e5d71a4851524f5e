//! Verdicts on parameters and solutions, and membership in the domains of a specification.
#![tactic(auto)]

mod assignments;
mod declared;
mod environments;
mod extra_values;
mod extras;
mod faults;
mod judging;
mod membership;
mod missing;
mod names;
mod parameters;
mod rooms;
mod sizes;
mod solutions;
mod tokens;
mod unnamed;
mod verdicts;

pub use assignments::{Assignment, NamedValue, TypeNames};
pub use environments::{go_on, no_env};
pub use ess_domains_cells::cells;
pub use ess_eval::EvalNo;
pub use membership::member;
pub use parameters::param_fits;
pub use solutions::solves;
pub use verdicts::{ParamVerdict, Verdict};
