ghost use Rattle.std.specs.Prelude.{◌≡◌, IfOk, [], ◌∷◌, map, option_map};
ghost use Rattle.ess_semantics.specs.Trees.{tuple_literal, set_literal, mset_literal, function_literal, relation_literal, matrix_literal};
ghost use Rattle.ess_semantics.specs.Operators.{value_of_node, list_value as the_list, numbers_from};
ghost use Rattle.ess_core.specs.ValueViews.{pure_val, pure_pair};

use crate::members::sorted_once;
use crate::operands::all_present;
use ess_core::{NoMemory, Row, Val};
use ess_values::{mset_of, set_of};
use std::alloc::Global;

/// The value of a tuple literal whose parts may have no value: then it has none. `NoMemory` where there is no room for it.
pub fn tuple_value(alloc: Global, parts: Row<Option<Val>>) -> Result<Option<Val>, NoMemory>
    ensures { IfOk result (λ o. option_map pure_val o ≡ value_of_node tuple_literal (map (option_map pure_val) parts)) }
{
    match all_present(alloc, parts)? {
        Some(vals) => Ok(Some(Val::Tuple(vals))),
        None => Ok(None),
    }
}

/// The value of a set literal whose members may have no value: then it has none. `NoMemory` where there is no room for it.
pub fn set_value(alloc: Global, members: Row<Option<Val>>) -> Result<Option<Val>, NoMemory>
    ensures { IfOk result (λ o. option_map pure_val o ≡ value_of_node set_literal (map (option_map pure_val) members)) }
{
    match all_present(alloc, members)? {
        Some(vals) => Ok(Some(set_of(alloc, vals)?)),
        None => Ok(None),
    }
}

/// The value of a multiset literal whose members may have no value: then it has none. `NoMemory` where there is no room for
/// it.
pub fn mset_value(alloc: Global, members: Row<Option<Val>>) -> Result<Option<Val>, NoMemory>
    ensures { IfOk result (λ o. option_map pure_val o ≡ value_of_node mset_literal (map (option_map pure_val) members)) }
{
    match all_present(alloc, members)? {
        Some(vals) => Ok(Some(mset_of(alloc, vals)?)),
        None => Ok(None),
    }
}

/// The value of a relation literal whose tuples may have no value: then it has none. `NoMemory` where there is no room for
/// it.
pub fn relation_value(alloc: Global, tuples: Row<Option<Val>>) -> Result<Option<Val>, NoMemory>
    ensures { IfOk result (λ o. option_map pure_val o ≡ value_of_node relation_literal (map (option_map pure_val) tuples)) }
{
    match all_present(alloc, tuples)? {
        Some(vals) => Ok(Some(Val::Relation(sorted_once(alloc, vals)?))),
        None => Ok(None),
    }
}

/// The value of a list literal whose items may have no value: then it has none. `NoMemory` where there is no room for it.
pub fn list_value(alloc: Global, items: Row<Option<Val>>) -> Result<Option<Val>, NoMemory>
    ensures { IfOk result (λ o. option_map pure_val o ≡ value_of_node matrix_literal (map (option_map pure_val) items)) }
{
    match all_present(alloc, items)? {
        Some(vals) => Ok(Some(list_of(alloc, vals)?)),
        None => Ok(None),
    }
}

/// A list: a matrix whose index begins at 1. `NoMemory` where there is no room for it.
pub fn list_of(alloc: Global, items: Row<Val>) -> Result<Val, NoMemory>
    ensures { IfOk result (λ v. pure_val v ≡ the_list (map pure_val items)) }
{
    let index = index_of_list(alloc, items.as_slice())?;
    Ok(Val::Matrix(index, items))
}

/// The numbers from 1 on, one for each item.
fn index_of_list(alloc: Global, items: &[Val]) -> Result<Row<Val>, NoMemory>
    ensures { IfOk result (λ r. map pure_val r ≡ numbers_from 1 (map pure_val items.now)) }
{
    let mut index = Row::new(alloc);
    for (i, _) in items.iter().enumerate() {
        index.push(Val::Num(i as i64 + 1))?;
    }
    Ok(index)
}
