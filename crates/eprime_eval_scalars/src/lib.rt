//! Numbers and truth values: what operators and folds give for them, tables of them, and runs of numbers.
#![tactic(auto)]

mod comparing;
mod folding;
mod grids;
mod numbers;
mod running;
mod scalars;

pub use comparing::{below, lists_below, same};
pub use ess_rows::{NoMemory, Row};
pub use folding::{all_different, all_true, any_true, greatest, least, product, sum};
pub use grids::{Axis, Grid, grid_of, item_at};
pub use numbers::{minus, negative, plus, size, times};
pub use running::{Run, is_within, runs_of, truth_runs};
pub use scalars::{Scalar, number_in, truth_in};

/// Why there is no answer.
#[derive(Clone, Copy, Debug, PartialEq, Eq)]
pub enum Stop {
    /// A number lies outside 64 bits: below -(2^63 - 1) or above 2^63 - 1.
    Big,
    /// There is no room for the answer.
    NoMemory,
}

impl From<NoMemory> for Stop {
    ghost use Rattle.std.specs.Prelude.{◌≡◌};
    ghost use Rattle.eprime_eval_scalars.specs.declared.Stop.TheVariants.{NoMemory};

    ghost from_gives = { λ _ e. e ≡ NoMemory };

    fn from(_: NoMemory) -> Stop {
        Stop::NoMemory
    }
}
