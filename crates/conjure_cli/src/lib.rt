//! The commands of Conjure, and what its self-test counts.
#![tactic(auto)]

mod counting;
mod counts_line;
mod ending;
mod judging;
mod line;
mod members;
mod model;
mod models;
mod names;
mod outcome;
mod program;
mod reader;
mod reasons;
mod refining;
mod telling;
mod test_telling;
mod testing;
mod texts;
mod translating;
mod validating;
mod whole;
mod words;
mod writer;
mod writing;

pub use counting::counts;
pub use counts_line::{Counts, text_of_counts};
pub use ending::Ending;
pub use model::{ModelNo, model_of};
pub use outcome::Outcome;
pub use program::{Status, run};
pub use test_telling::test_line;
pub use whole::model_for;
