ghost use Rattle.std.specs.Prelude.{◌≡◌, map, option_map, IfOk};
ghost use Rattle.ess_semantics.specs.Lists.{and_then, only_of};
ghost use Rattle.ess_semantics.specs.Values.{pair as a_pair};
ghost use Rattle.ess_semantics.specs.Collections.{function_of as the_function_of};
ghost use Rattle.ess_semantics.specs.FunctionLayers.{with_arguments as pairs_with_arguments, function_with as the_function_with};
ghost use Rattle.ess_semantics.specs.FunctionLayers.{function_from};
ghost use Rattle.ess_core.specs.ValueViews.{pure_val, pure_pair};

use ess_core::{NoMemory, Pair, Row, Val};
use ess_values::{FunctionNo, function_of};
use std::alloc::Global;

/// The function of these arguments and values, side by side as far as both go. `NoMemory` where there is no room for it.
#[tactic(auto, using(ess_core::proofs::ValueEquations::pure_function))]
pub(crate) fn function_with(alloc: Global, arguments: &[Val], vals: &[Val]) -> Result<Val, NoMemory>
    ensures { IfOk result (λ v. pure_val v ≡ the_function_with (map pure_val arguments.now) (map pure_val vals.now)) }
{
    let pairs = with_arguments(alloc, arguments, vals)?;
    Ok(Val::Function(pairs))
}

/// The pairs of these arguments and values, as far as both go. `NoMemory` where there is no room for them.
#[tactic(auto, using(crate::proofs::PairsOfValues::pairs_made))]
fn with_arguments(alloc: Global, arguments: &[Val], vals: &[Val]) -> Result<Row<Pair>, NoMemory>
    ensures { IfOk result (λ r. map pure_pair r ≡ pairs_with_arguments (map pure_val arguments.now) (map pure_val vals.now)) }
{
    let mut pairs = Row::new(alloc);
    for (i, argument) in arguments.iter().enumerate() {
        if i >= vals.len() {
            return Ok(pairs);
        }
        pairs.push(pair(alloc, argument, &vals[i])?)?;
    }
    Ok(pairs)
}

/// A pair of copies. `NoMemory` where there is no room for them.
fn pair(alloc: Global, from: &Val, to: &Val) -> Result<Pair, NoMemory>
    ensures { IfOk result (λ p. pure_pair p ≡ a_pair (pure_val from.now) (pure_val to.now)) }
{
    let from = from.copy(alloc)?;
    match to.copy(alloc) {
        Ok(to) => Ok(Pair { from, to }),
        Err(no) => {
            drop(from);
            Err(no)
        }
    }
}

/// The function of the pairs of the only relation; nothing where there is not one value, where it is no relation, or where two pairs
/// have one argument and differ. `NoMemory` where there is no room for it, and where a tuple is no pair.
pub(crate) fn function_of_relation(alloc: Global, vals: &[Val]) -> Result<Option<Val>, NoMemory>
    ensures { IfOk result (λ o. option_map pure_val o ≡ and_then (only_of (map pure_val vals.now)) function_from) }
{
    if vals.len() != 1 {
        return Ok(None);
    }
    function_in(alloc, &vals[0])
}

/// The function of the pairs of a relation; nothing where the value is none, or where two pairs have one argument and differ.
fn function_in(alloc: Global, val: &Val) -> Result<Option<Val>, NoMemory>
    ensures { IfOk result (λ o. option_map pure_val o ≡ function_from (pure_val val.now)) }
{
    match val {
        Val::Relation(tuples) => function_of_tuples(alloc, tuples.as_slice()),
        _ => Ok(None),
    }
}

/// The function of pairs that are given as tuples; nothing where two of them have one argument and differ.
fn function_of_tuples(alloc: Global, tuples: &[Val]) -> Result<Option<Val>, NoMemory>
    ensures { IfOk result (λ o. option_map pure_val o ≡ the_function_of (map pure_val tuples.now)) }
{
    let pairs = pairs_in(alloc, tuples)?;
    match function_of(alloc, pairs) {
        Ok(val) => Ok(Some(val)),
        Err(FunctionNo::DoubleArgument) => Ok(None),
        Err(FunctionNo::NoMemory) => Err(NoMemory),
    }
}

/// Tuples as pairs. `NoMemory` where there is no room for them, and where one of them is no pair.
fn pairs_in(alloc: Global, tuples: &[Val]) -> Result<Row<Pair>, NoMemory>
    ensures { IfOk result (λ r. map pure_pair r ≡ map pure_val tuples.now) }
{
    let mut pairs = Row::with_capacity(alloc, tuples.len())?;
    for tuple in tuples {
        pairs.push(pair_in(alloc, tuple)?)?;
    }
    Ok(pairs)
}

/// A tuple of two as a pair. `NoMemory` where there is no room for it, and where the value is none: no function holds it.
#[tactic(auto, using(crate::proofs::PairsOfValues::pair_of_two))]
fn pair_in(alloc: Global, tuple: &Val) -> Result<Pair, NoMemory>
    ensures { IfOk result (λ p. pure_pair p ≡ pure_val tuple.now) }
{
    match tuple {
        Val::Tuple(parts) => {
            if parts.len() == 2 {
                pair(alloc, &parts.as_slice()[0], &parts.as_slice()[1])
            } else {
                Err(NoMemory)
            }
        }
        _ => Err(NoMemory),
    }
}
