ghost use Rattle.std.specs.Prelude.{◌≡◌, IfOk, [], ◌∷◌, map, option_map};
ghost use Rattle.ess_semantics.specs.Lists.{all_some};
ghost use Rattle.ess_semantics.specs.Trees.{tuple_literal, function_literal};
ghost use Rattle.ess_semantics.specs.Collections.{function_of as the_function};
ghost use Rattle.ess_semantics.specs.Operators.{value_of_node};
ghost use Rattle.ess_core.specs.ValueViews.{pure_val, pure_pair};

use ess_core::{NoMemory, Pair, Row, Val};
use ess_values::{FunctionNo, function_of};
use std::alloc::Global;

/// The pair of a function literal, where both of its parts have values.
pub fn pair_value(from: Option<Val>, to: Option<Val>) -> Option<Pair>
    ensures { option_map pure_pair result ≡ value_of_node tuple_literal (option_map pure_val from ∷ option_map pure_val to ∷ []) }
{
    match from {
        Some(from) => match to {
            Some(to) => Some(Pair { from, to }),
            None => {
                drop(from);
                None
            }
        },
        None => {
            drop(to);
            None
        }
    }
}

/// The value of a function literal whose pairs may have no value: then it has none, and so where two pairs have one argument
/// and differ. `NoMemory` where there is no room for it.
pub fn function_value(alloc: Global, pairs: Row<Option<Pair>>) -> Result<Option<Val>, NoMemory>
    ensures { IfOk result (λ o. option_map pure_val o ≡ value_of_node function_literal (map (option_map pure_pair) pairs)) }
{
    match present_pairs(alloc, pairs.as_slice())? {
        Some(pairs) => function_from(alloc, pairs),
        None => Ok(None),
    }
}

/// The function of these pairs, where no two of them have one argument and differ.
fn function_from(alloc: Global, pairs: Row<Pair>) -> Result<Option<Val>, NoMemory>
    ensures { IfOk result (λ o. option_map pure_val o ≡ the_function (map pure_pair pairs)) }
{
    match function_of(alloc, pairs) {
        Ok(val) => Ok(Some(val)),
        Err(FunctionNo::DoubleArgument) => Ok(None),
        Err(FunctionNo::NoMemory) => Err(NoMemory),
    }
}

/// Copies of pairs, where each is there. `NoMemory` where there is no room for them.
#[tactic(auto, using(crate::proofs::PresentOperands::operands))]
fn present_pairs(alloc: Global, pairs: &[Option<Pair>]) -> Result<Option<Row<Pair>>, NoMemory>
    ensures { IfOk result (λ o. option_map (map pure_pair) o ≡ all_some (map (option_map pure_pair) pairs.now)) }
{
    let mut copies = Row::with_capacity(alloc, pairs.len())?;
    for pair in pairs {
        match pair {
            Some(pair) => match pair.copy(alloc) {
                Ok(copy) => copies.push(copy)?,
                Err(no) => return Err(no),
            },
            None => return Ok(None),
        }
    }
    Ok(Some(copies))
}
