//! What operators, function words, indices, applications and literals give for the values of their operands.
#![tactic(auto)]

mod applications;
mod calls;
mod collections;
mod comparisons;
mod connectives;
mod folds;
mod function_literals;
mod functions;
mod indices;
mod items;
mod literals;
mod members;
mod numbers;
mod operands;
mod operators;
mod partition_literals;
mod partitions;
mod records;
mod words;

pub use applications::value_of_application;
pub use calls::value_of_word;
pub use connectives::settle;
use ess_core::NoMemory;
pub use function_literals::{function_value, pair_value};
pub use indices::value_at_steps;
pub use items::items_of;
pub use literals::{list_of, list_value, mset_value, relation_value, set_value, tuple_value};
pub use operators::{value_of_binary, value_of_unary};
pub use partition_literals::partition_value;
pub use records::record_value;
pub use words::{value_of_word1, value_of_word2};

/// Why an operator gives no answer.
#[derive(Clone, Copy, Debug, PartialEq, Eq)]
pub enum OperateNo {
    /// The answer is a number outside 64 bits: below -(2^63 - 1) or above 2^63 - 1.
    Big,
    /// There is no room for the answer. So too where no value has the answer's form: for a union, an intersection or a
    /// difference whose first operand is a matrix, a record or a function, which no well-typed tree has.
    NoMemory,
}

impl From<NoMemory> for OperateNo {
    ghost use Rattle.std.specs.Prelude.{◌≡◌};
    ghost use Rattle.ess_eval_operators.specs.declared.OperateNo.TheVariants.{NoMemory};

    ghost from_gives = { λ _ e. e ≡ NoMemory };

    fn from(_: NoMemory) -> OperateNo {
        OperateNo::NoMemory
    }
}
