ghost use Rattle.std.specs.Prelude.{◌≡◌, [], ◌∷◌, ◌++◌, map, option_map, Some, IfOk, OnOk};
ghost use Rattle.ess_semantics.specs.Domains.{members as members_of};
ghost use Rattle.ess_core.specs.ValueViews.{pure_val};
ghost use Rattle.ess_eval_domains.specs.ClosedViews.{pure_closed, pure_closeds};
ghost use Rattle.ess_domains_members.specs.Leaves.{matrix_items, all_items, leaves as leaves_of};

use crate::lists::same_list;
use ess_core::{NoMemory, Row, Val};
use ess_eval_domains::{Closed, members};
use std::alloc::Global;

/// The elements of a nested matrix over these index domains, where the value is one. `NoMemory` where there is no room for
/// them, or for the members of an index domain.
#[tactic(auto, using(crate::proofs::MatrixLeaves::leaves_more, crate::proofs::MatrixLeaves::leaves_none, crate::proofs::MatrixLeaves::leaves_end))]
pub fn leaves(alloc: Global, axes: &[Closed], val: &Val) -> Result<Option<Row<Val>>, NoMemory>
    ensures { IfOk result (λ o. option_map (map pure_val) o ≡ leaves_of (pure_closeds axes.now) (pure_val val.now ∷ [])) }
{
    let mut level = Row::with_capacity(alloc, 1)?;
    add_copy(alloc, &mut level, val)?;
    for axis in axes {
        match next_level(alloc, axis, level.as_slice())? {
            Some(next) => level = next,
            None => return Ok(None),
        }
    }
    Ok(Some(level))
}

/// The items of all of these matrices over one index domain, where each is one.
#[tactic(auto, using(crate::proofs::MatrixItems::no_index_empty, crate::proofs::MatrixItems::no_index_some))]
fn next_level(alloc: Global, axis: &Closed, vals: &[Val]) -> Result<Option<Row<Val>>, NoMemory>
    ensures { IfOk result (λ o. option_map (map pure_val) o ≡ all_items (members_of (pure_closed axis.now)) (map pure_val vals.now)) }
{
    match members(alloc, axis)? {
        Some(index) => Ok(gather(alloc, index.as_slice(), vals)?),
        None => {
            if vals.len() == 0 {
                Ok(Some(Row::new(alloc)))
            } else {
                Ok(None)
            }
        }
    }
}

/// The items of all of these matrices, where each has these indices.
#[tactic(auto, using(crate::proofs::MatrixLeaves::items_more, crate::proofs::MatrixLeaves::items_none, crate::proofs::MatrixLeaves::items_end))]
fn gather(alloc: Global, index: &[Val], vals: &[Val]) -> Result<Option<Row<Val>>, NoMemory>
    ensures { IfOk result (λ o. option_map (map pure_val) o ≡ all_items (Some (map pure_val index.now)) (map pure_val vals.now)) }
{
    let mut all = Row::new(alloc);
    for val in vals {
        match items_of(alloc, index, val)? {
            Some(own) => add_all(&mut all, own)?,
            None => return Ok(None),
        }
    }
    Ok(Some(all))
}

/// Puts values behind others.
fn add_all(all: &mut Row<Val>, mut own: Row<Val>) -> Result<(), NoMemory>
    ensures { OnOk result (map pure_val all.new ≡ map pure_val all.old ++ map pure_val own) }
{
    all.append(&mut own)
}

/// The items of a matrix, where it has these indices.
#[tactic(auto, using(crate::proofs::MatrixItems::matrix_there, crate::proofs::MatrixItems::matrix_other, crate::proofs::MatrixItems::matrix_short))]
fn items_of(alloc: Global, index: &[Val], val: &Val) -> Result<Option<Row<Val>>, NoMemory>
    ensures { IfOk result (λ o. option_map (map pure_val) o ≡ matrix_items (Some (map pure_val index.now)) (pure_val val.now)) }
{
    match val {
        Val::Num(_) => Ok(None),
        Val::Truth(_) => Ok(None),
        Val::Item(_, _) => Ok(None),
        Val::Tuple(_) => Ok(None),
        Val::Rec(_) => Ok(None),
        Val::Matrix(own, items) => {
            if !same_list(index, own.as_slice()) {
                return Ok(None);
            }
            if own.len() != items.len() {
                return Ok(None);
            }
            Ok(Some(copies(alloc, items.as_slice())?))
        }
        Val::Set(_) => Ok(None),
        Val::MSet(_) => Ok(None),
        Val::Function(_) => Ok(None),
        Val::Relation(_) => Ok(None),
        Val::Partition(_) => Ok(None),
    }
}

/// Copies of several values.
fn copies(alloc: Global, vals: &[Val]) -> Result<Row<Val>, NoMemory>
    ensures { IfOk result (λ r. r ≡ vals.now) }
{
    let mut row = Row::with_capacity(alloc, vals.len())?;
    for val in vals {
        add_copy(alloc, &mut row, val)?;
    }
    Ok(row)
}

/// Puts a copy of a value behind others.
pub fn add_copy(alloc: Global, row: &mut Row<Val>, val: &Val) -> Result<(), NoMemory>
    ensures { OnOk result (row.new ≡ row.old ++ val.now ∷ []) }
{
    match val.copy(alloc) {
        Ok(copy) => row.push(copy),
        Err(no) => Err(no),
    }
}

/// Puts copies of several values behind others.
pub fn add_copies(alloc: Global, all: &mut Row<Val>, vals: &[Val]) -> Result<(), NoMemory>
    ensures { OnOk result (all.new ≡ all.old ++ vals.now) }
{
    for val in vals {
        add_copy(alloc, all, val)?;
    }
    Ok(())
}
