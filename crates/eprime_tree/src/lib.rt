//! Models in Essence Prime as trees: their declarations, objective and constraints, and what these stand for in the
//! definitions of their meaning.
#![tactic(auto)]

mod copies;
pub mod expressions;
pub mod models;
mod printing;
pub mod words;

pub use ess_rows::{Boxed, NoMemory, Row, Text};
pub use expressions::{PDom, PEx, PGen, PList, PRange};
pub use models::{PDecl, PGoal, PModel};
pub use printing::{print_cells, print_model};
pub use words::{PFun, POp1, POp2};
