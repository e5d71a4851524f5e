ghost use Rattle.std.specs.Prelude.{◌≡◌, map, true, IfOk};
ghost use Rattle.ess_semantics.specs.Collections.{function_of as the_function, has_double_argument};
ghost use Rattle.ess_semantics.specs.Values.{from_of};
ghost use Rattle.ess_core.specs.ValueViews.{pure_val, pure_pair};
ghost use Rattle.ess_values.specs.Neighbours.{neighbours_differ};
ghost use Rattle.ess_values.specs.declared.functions.FunctionNo.TheVariants.{DoubleArgument};

use crate::comparing::order_val;
use crate::sorting::sorted_pairs_once;
use ess_core::{NoMemory, Pair, Row, Val};
use std::alloc::Global;
use std::cmp::Ordering;

/// Why pairs make no function.
#[derive(Clone, Copy, Debug, PartialEq, Eq)]
pub enum FunctionNo {
    /// Two of them have one argument and differ.
    DoubleArgument,
    /// There is no room to sort them.
    NoMemory,
}

impl From<NoMemory> for FunctionNo {
    ghost use Rattle.std.specs.Prelude.{◌≡◌};
    ghost use Rattle.ess_values.specs.declared.functions.FunctionNo.TheVariants.{NoMemory};

    ghost from_gives = { λ _ e. e ≡ NoMemory };

    fn from(_: NoMemory) -> FunctionNo {
        FunctionNo::NoMemory
    }
}

/// The function of pairs whose arguments have one type, and whose second parts have one: they are sorted by argument,
/// and equal pairs count once. `DoubleArgument` where two pairs have equal arguments and differ, else `NoMemory` where
/// there is no room to sort them.
pub fn function_of(_alloc: Global, pairs: Row<Pair>) -> Result<Val, FunctionNo>
    ensures ok { IfOk result (λ v. the_function (map pure_pair pairs) ≡ Some (pure_val v)) }
    ensures double { result ≡ Err DoubleArgument → has_double_argument (map pure_pair pairs) ≡ true }
{
    let pairs = sorted_pairs_once(pairs)?;
    if !arguments_differ(pairs.as_slice()) {
        return Err(FunctionNo::DoubleArgument);
    }
    Ok(Val::Function(pairs))
}

/// Whether the arguments of each two neighbours differ.
fn arguments_differ(pairs: &[Pair]) -> bool
    ensures { result ≡ neighbours_differ (map from_of (map pure_pair pairs.now)) }
{
    for (i, pair) in pairs.iter().enumerate() {
        if i + 1 < pairs.len() {
            if order_val(&pair.from, &pairs[i + 1].from) == Ordering::Equal {
                return false;
            }
        }
    }
    true
}
