ghost use Rattle.std.specs.Prelude.{◌≡◌, [], ◌∷◌, Some, map, option_map, IfOk};
ghost use Rattle.ess_semantics.specs.Lists.{and_then, only_of};
ghost use Rattle.ess_semantics.specs.Values.{a_set, node, of_list, items_of as the_items};
ghost use Rattle.ess_semantics.specs.RelationLayers.{relation_from};
ghost use Rattle.ess_semantics.specs.PartitionLayers.{partition_from};
ghost use Rattle.ess_core.specs.ValueViews.{pure_val};
ghost use Rattle.ess_repr_tables.specs.SlotViews.{pure_tables};

use ess_core::{NoMemory, Row, Table, Val};
use ess_eval_operators::{items_of, partition_value};
use std::alloc::Global;

/// The members, tuples or parts of a value as a set, the only part. `NoMemory` where there is no room for it.
#[tactic(auto, using(ess_core::proofs::ValueEquations::pure_set))]
pub(crate) fn as_set(alloc: Global, val: &Val) -> Result<Row<Val>, NoMemory>
    ensures { IfOk result (λ r. map pure_val r ≡ node a_set (of_list (the_items (pure_val val.now))) ∷ []) }
{
    let items = items_of(alloc, val)?;
    let mut parts = Row::with_capacity(alloc, 1)?;
    parts.push(Val::Set(items))?;
    Ok(parts)
}

/// The tables of the only part; nothing where there are more or fewer.
#[tactic(auto, using(crate::proofs::OnlyParts::only_there, crate::proofs::OnlyParts::only_more, crate::proofs::OnlyParts::only_none))]
pub fn only_tables(inner: Row<Row<Table>>) -> Option<Row<Table>>
    ensures { option_map pure_tables result ≡ only_of (map pure_tables inner) }
{
    let mut inner = inner;
    match inner.pop() {
        Some(last) => { if inner.len() == 0 { Some(last) } else { None } }
        None => None,
    }
}

/// The only value; nothing where there are more or fewer.
#[tactic(auto, using(crate::proofs::OnlyParts::value_there, crate::proofs::OnlyParts::value_more, crate::proofs::OnlyParts::value_none))]
fn only_value(vals: Row<Val>) -> Option<Val>
    ensures { option_map pure_val result ≡ only_of (map pure_val vals) }
{
    let mut vals = vals;
    match vals.pop() {
        Some(last) => {
            if vals.len() == 0 {
                Some(last)
            } else {
                drop(last);
                None
            }
        }
        None => None,
    }
}

/// The relation of the tuples of the only value, which is a set; nothing where it is none or not the only one.
pub fn relation_value_of(vals: Row<Val>) -> Option<Val>
    ensures { option_map pure_val result ≡ and_then (only_of (map pure_val vals)) relation_from }
{
    match only_value(vals) {
        Some(set) => relation_of(set),
        None => None,
    }
}

/// The relation of the members of a set; nothing for any other value.
#[tactic(auto, using(ess_core::proofs::ValueEquations::pure_set, ess_core::proofs::ValueEquations::pure_relation))]
fn relation_of(set: Val) -> Option<Val>
    ensures { option_map pure_val result ≡ relation_from (pure_val set) }
{
    match set {
        Val::Set(tuples) => Some(Val::Relation(tuples)),
        other => {
            drop(other);
            None
        }
    }
}

/// The partition whose parts are the members of the only value, which is a set; nothing where it is none or not the only one, where a
/// part is empty or two of them share a member. `NoMemory` where there is no room for it, or to tell.
pub fn partition_value_of(alloc: Global, vals: Row<Val>) -> Result<Option<Val>, NoMemory>
    ensures { IfOk result (λ o. option_map pure_val o ≡ and_then (only_of (map pure_val vals)) partition_from) }
{
    match only_value(vals) {
        Some(set) => partition_of_set(alloc, set),
        None => Ok(None),
    }
}

/// The partition whose parts are the members of a set; nothing for any other value.
#[tactic(auto, using(ess_core::proofs::ValueEquations::pure_set, crate::proofs::OnlyParts::parts_value))]
fn partition_of_set(alloc: Global, set: Val) -> Result<Option<Val>, NoMemory>
    ensures { IfOk result (λ o. option_map pure_val o ≡ partition_from (pure_val set)) }
{
    match set {
        Val::Set(parts) => partition_value(alloc, all_there(alloc, parts)?),
        other => {
            drop(other);
            Ok(None)
        }
    }
}

/// Values that are all there. `NoMemory` where there is no room for them.
#[tactic(auto, using(std::proofs::lemmas::List::map_push))]
fn all_there(alloc: Global, vals: Row<Val>) -> Result<Row<Option<Val>>, NoMemory>
    ensures { IfOk result (λ r. map (option_map pure_val) r ≡ map (λ v. Some v) (map pure_val vals)) }
{
    let mut there = Row::with_capacity(alloc, vals.len())?;
    for val in vals.into_vec() {
        there.push(Some(val))?;
    }
    Ok(there)
}
