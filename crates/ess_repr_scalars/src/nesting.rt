//! Matrices made of their elements.
ghost use Rattle.std.specs.Prelude.{◌≡◌, map, take, drop, option_map, IfOk};
ghost use Rattle.ess_semantics.specs.Lists.{each_of};
ghost use Rattle.ess_semantics.specs.ScalarLayers.{in_lists_of};
ghost use Rattle.ess_core.specs.ValueViews.{pure_val};
ghost use Rattle.ess_repr_scalars.specs.NestedMatrices.{places_in, nested_in};

use ess_core::{NoMemory, Row, Val};
use std::alloc::Global;

/// The nested matrix of these elements over the members of each index domain; nothing where there aren't as many elements as places.
/// `NoMemory` where there is no room for it.
#[cycle(nested)]
#[tactic(auto, using(crate::proofs::NestingLoops::element_there, crate::proofs::NestingLoops::element_not, crate::proofs::NestingLoops::matrix_made, crate::proofs::NestingLoops::matrix_none))]
pub(crate) fn nested(
    alloc: Global,
    index: &[Row<Val>],
    vals: &[Val],
) -> Result<Option<Val>, NoMemory>
    ensures { IfOk result (λ o. option_map pure_val o ≡ nested_in (map (map pure_val) index.now) (map pure_val vals.now)) }
{
    if index.len() == 0 {
        if vals.len() != 1 {
            return Ok(None);
        }
        return Ok(Some(vals[0].copy(alloc)?));
    }
    match nested_each(alloc, index[0].len(), &index[1..], vals)? {
        Some(items) => {
            let members = copies(alloc, index[0].as_slice())?;
            Ok(Some(Val::Matrix(members, items)))
        }
        None => Ok(None),
    }
}

/// So many nested matrices of these elements, in turn.
#[cycle(nested)]
#[tactic(auto, using(crate::proofs::NestingLoops::each_none, crate::proofs::NestingLoops::each_more, crate::proofs::NestingLoops::each_stop, crate::proofs::NestingLoops::each_all))]
fn nested_each(
    alloc: Global,
    count: usize,
    index: &[Row<Val>],
    vals: &[Val],
) -> Result<Option<Row<Val>>, NoMemory>
    ensures { IfOk result (λ o. option_map (map pure_val) o ≡ each_of (in_lists_of count (places_in (map (map pure_val) index.now)) (map pure_val vals.now)) (nested_in (map (map pure_val) index.now))) }
{
    let size = places(index)?;
    let mut items = Row::with_capacity(alloc, count)?;
    let mut rest = vals;
    for k in 0..count {
        match nested(alloc, index, first_vals(rest, size))? {
            Some(item) => items.push(item)?,
            None => return Ok(None),
        }
        rest = other_vals(rest, size);
    }
    Ok(Some(items))
}

/// How many elements a matrix over these members has. `NoMemory` where they can't be counted.
#[tactic(auto, using(crate::proofs::NestingLoops::places_none, crate::proofs::NestingLoops::places_more, crate::proofs::NestingLoops::places_all))]
fn places(index: &[Row<Val>]) -> Result<usize, NoMemory>
    ensures { IfOk result (λ n. n ≡ places_in (map (map pure_val) index.now)) }
{
    let mut total: usize = 1;
    for members in index {
        match total.checked_mul(members.len()) {
            Some(product) => total = product,
            None => return Err(NoMemory),
        }
    }
    Ok(total)
}

/// The first values; all where there are no more.
fn first_vals(vals: &[Val], count: usize) -> &[Val]
    ensures { result.now ≡ take count vals.now }
{
    if count < vals.len() {
        &vals[..count]
    } else {
        vals
    }
}

/// The values after the first ones.
fn other_vals(vals: &[Val], count: usize) -> &[Val]
    ensures { result.now ≡ drop count vals.now }
{
    if count < vals.len() {
        &vals[count..]
    } else {
        &[]
    }
}

/// Copies of values. `NoMemory` where there is no room for them.
fn copies(alloc: Global, vals: &[Val]) -> Result<Row<Val>, NoMemory>
    ensures { IfOk result (λ r. r ≡ vals.now) }
{
    let mut copies = Row::with_capacity(alloc, vals.len())?;
    for val in vals {
        match val.copy(alloc) {
            Ok(copy) => copies.push(copy)?,
            Err(no) => return Err(no),
        }
    }
    Ok(copies)
}
