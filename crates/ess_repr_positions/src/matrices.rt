//! Types put back into the indices and elements of matrices, and into each of several values.
ghost use Rattle.std.specs.Prelude.{◌≡◌, [], map, option_map, IfOk};
ghost use Rattle.ess_semantics.specs.Lists.{each_of};
ghost use Rattle.ess_core.specs.ValueViews.{pure_val};
ghost use Rattle.ess_repr_positions_laws.specs.TypedParts.{matrix_of};
ghost use Rattle.ess_repr_positions.specs.Typed.{nested_typed};

use crate::types::typed;
use ess_core::{NoMemory, Row, Val};
use ess_eval_domains::Closed;
use std::alloc::Global;

/// A matrix over these axes, of such elements; the element itself where there is no axis.
#[cycle(typing)]
#[tactic(auto, using(crate::proofs::TypedLoops::no_axis, crate::proofs::TypedLoops::one_axis))]
pub(crate) fn nested(
    alloc: Global,
    axes: &[Closed],
    item: &Closed,
    val: &Val,
) -> Result<Option<Val>, NoMemory>
    ensures { IfOk result (λ o. option_map pure_val o ≡ nested_typed axes.now item.now val.now) }
{
    match axes.split_first() {
        None => typed(alloc, item, val),
        Some((axis, rest)) => match val {
            Val::Matrix(index, vals) => {
                matrix(alloc, axis, rest, item, index.as_slice(), vals.as_slice())
            }
            _ => Ok(None),
        },
    }
}

/// The matrix of these indices of one axis and these elements over the others.
#[cycle(typing)]
#[tactic(auto, using(crate::proofs::TypedLoops::matrix_there, crate::proofs::TypedLoops::no_index, crate::proofs::TypedLoops::no_element))]
fn matrix(
    alloc: Global,
    axis: &Closed,
    rest: &[Closed],
    item: &Closed,
    index: &[Val],
    vals: &[Val],
) -> Result<Option<Val>, NoMemory>
    ensures { IfOk result (λ o. option_map pure_val o ≡ matrix_of (each_of index.now (nested_typed [] axis.now))
        (each_of vals.now (nested_typed rest.now item.now))) }
{
    match each_nested(alloc, &[], axis, index)? {
        Some(index) => match each_nested(alloc, rest, item, vals)? {
            Some(vals) => Ok(Some(Val::Matrix(index, vals))),
            None => Ok(None),
        },
        None => Ok(None),
    }
}

/// Each of several matrices over these axes, or of several values where there is no axis.
#[cycle(typing)]
#[tactic(auto, using(crate::proofs::TypedLoops::nested_turns))]
pub(crate) fn each_nested(
    alloc: Global,
    axes: &[Closed],
    item: &Closed,
    vals: &[Val],
) -> Result<Option<Row<Val>>, NoMemory>
    ensures { IfOk result (λ o. option_map (map pure_val) o ≡ each_of vals.now (nested_typed axes.now item.now)) }
{
    let mut all = Row::with_capacity(alloc, vals.len())?;
    for val in vals {
        match nested(alloc, axes, item, val)? {
            Some(val) => all.push(val)?,
            None => return Ok(None),
        }
    }
    Ok(Some(all))
}
