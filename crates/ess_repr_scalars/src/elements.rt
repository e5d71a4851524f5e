//! The elements of a matrix that is nested so deep.
ghost use Rattle.std.specs.Prelude.{◌≡◌, ◌∷◌, [], ◌++◌, map, IfOk, OnOk};
ghost use Rattle.ess_semantics.specs.Lists.{append_all};
ghost use Rattle.ess_core.specs.ValueViews.{pure_val};
ghost use Rattle.ess_repr_scalars.specs.NestedMatrices.{elements_at};

use ess_core::{NoMemory, Row, Val};
use std::alloc::Global;

/// The elements of a matrix that is nested so deep, row by row; the value itself at depth 0. `NoMemory` where there is no room for them.
#[tactic(auto, using(crate::proofs::ElementLoops::elements_made))]
pub(crate) fn elements(alloc: Global, depth: usize, value: &Val) -> Result<Row<Val>, NoMemory>
    ensures { IfOk result (λ r. map pure_val r ≡ elements_at depth (pure_val value.now)) }
{
    let mut all = Row::new(alloc);
    add_elements(alloc, &mut all, depth, value)?;
    Ok(all)
}

/// Puts the elements of a matrix that is nested so deep behind others.
#[cycle(elements)]
#[tactic(auto, using(crate::proofs::ElementLoops::value_alone, crate::proofs::ElementLoops::of_matrix, crate::proofs::ElementLoops::of_num, crate::proofs::ElementLoops::of_truth, crate::proofs::ElementLoops::of_item, crate::proofs::ElementLoops::of_tuple, crate::proofs::ElementLoops::of_rec, crate::proofs::ElementLoops::of_set, crate::proofs::ElementLoops::of_mset, crate::proofs::ElementLoops::of_function, crate::proofs::ElementLoops::of_relation, crate::proofs::ElementLoops::of_partition))]
fn add_elements(
    alloc: Global,
    all: &mut Row<Val>,
    depth: usize,
    value: &Val,
) -> Result<(), NoMemory>
    ensures { OnOk result (map pure_val all.new ≡ map pure_val all.old ++ elements_at depth (pure_val value.now)) }
{
    if depth == 0 {
        return add_copy(alloc, all, value);
    }
    match value {
        Val::Matrix(_, items) => add_each(alloc, all, depth - 1, items.as_slice()),
        Val::Num(_) => Ok(()),
        Val::Truth(_) => Ok(()),
        Val::Item(_, _) => Ok(()),
        Val::Tuple(_) => Ok(()),
        Val::Rec(_) => Ok(()),
        Val::Set(_) => Ok(()),
        Val::MSet(_) => Ok(()),
        Val::Function(_) => Ok(()),
        Val::Relation(_) => Ok(()),
        Val::Partition(_) => Ok(()),
    }
}

/// Puts the elements of each of several values that are nested so deep behind others.
#[cycle(elements)]
#[tactic(auto, using(crate::proofs::ElementLoops::each_more, crate::proofs::ElementLoops::each_all))]
fn add_each(alloc: Global, all: &mut Row<Val>, depth: usize, vals: &[Val]) -> Result<(), NoMemory>
    ensures { OnOk result (map pure_val all.new ≡ map pure_val all.old ++ append_all (map (elements_at depth) (map pure_val vals.now))) }
{
    for val in vals {
        add_elements(alloc, all, depth, val)?;
    }
    Ok(())
}

/// Puts a copy of a value behind others. `NoMemory` where there is no room for it.
fn add_copy(alloc: Global, row: &mut Row<Val>, val: &Val) -> Result<(), NoMemory>
    ensures { OnOk result (row.new ≡ row.old ++ val.now ∷ []) }
{
    match val.copy(alloc) {
        Ok(copy) => row.push(copy),
        Err(no) => Err(no),
    }
}
