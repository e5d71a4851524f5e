ghost use Rattle.std.specs.Prelude.{◌≡◌, IfOk, None, true, map, option_map, reverse};
ghost use Rattle.ess_semantics.specs.Lists.{and_then, all_some};
ghost use Rattle.ess_core.specs.TreeViews.{pure_dom, pure_view};
ghost use Rattle.ess_semantics.specs.Large.{is_large};
ghost use Rattle.ess_eval.specs.Environments.{env_at};
ghost use Rattle.ess_eval_operators.specs.declared.OperateNo.TheVariants.{Big};
ghost use Rattle.ess_semantics.specs.Values.{items_of as the_items};
ghost use Rattle.ess_semantics.specs.Meaning.{as_int, is_bool_dom, meaning, is_true as is_true_there, matrix_value};
ghost use Rattle.ess_semantics.specs.Operators.{as_truth, false_where_undefined};
ghost use Rattle.ess_core.specs.ValueViews.{pure_val};

use crate::risen::Risen;
use ess_core::{Binding, Dom, NoMemory, Row, Val, View};
use ess_eval_operators::{OperateNo, items_of, list_value};
use std::alloc::Global;

/// The truth value, and false for anything else.
pub(crate) fn truth_of(found: Option<Val>) -> bool
    ensures truth { result ≡ as_truth (option_map pure_val found) }
    ensures holds { result ≡ is_true_there (option_map pure_val found) }
{
    let truth = match &found {
        Some(Val::Truth(truth)) => *truth,
        _ => false,
    };
    drop(found);
    truth
}

/// The whole number that a bound or an attribute reads.
pub(crate) fn number_of(found: Option<Val>) -> Option<i64>
    ensures { result ≡ as_int (option_map pure_val found) }
{
    let number = match &found {
        Some(Val::Num(number)) => Some(*number),
        Some(_) => Some(0),
        None => None,
    };
    drop(found);
    number
}

/// What a generator over a value runs over.
#[tactic(auto, using(crate::proofs::Values::items_of_collections))]
pub(crate) fn items_in(alloc: Global, val: Val) -> Result<Row<Val>, NoMemory>
    ensures { IfOk result (λ r. map pure_val r ≡ the_items (pure_val val)) }
{
    match val {
        Val::Matrix(index, items) => {
            drop(index);
            Ok(items)
        }
        Val::Set(members) => Ok(members),
        Val::MSet(members) => Ok(members),
        Val::Relation(tuples) => Ok(tuples),
        Val::Partition(parts) => Ok(parts),
        other => {
            let items = items_of(alloc, &other);
            drop(other);
            items
        }
    }
}

/// The values, the last one first.
pub(crate) fn reversed(vals: Row<Val>) -> Row<Val>
    ensures { result ≡ reverse vals }
{
    let mut vals = vals.into_vec();
    vals.reverse();
    Row::from_vec(vals)
}

/// A matrix with the members of its index domain, where these and each item are there, and they are as many.
#[tactic(auto, using(crate::proofs::Values::matrix_there, crate::proofs::Values::matrix_none))]
pub(crate) fn matrix_of(
    alloc: Global,
    index: Option<Row<Val>>,
    items: Row<Option<Val>>,
) -> Result<Option<Val>, NoMemory>
    ensures { IfOk result (λ o. option_map pure_val o ≡ and_then (all_some (map (option_map pure_val) items)) (matrix_value (option_map (map pure_val) index))) }
{
    match list_value(alloc, items) {
        Ok(Some(list)) => Ok(fitted(index, items_in(alloc, list)?)),
        Ok(None) => Ok(None),
        Err(no) => Err(no),
    }
}

/// A matrix, where it has as many items as indices.
fn fitted(index: Option<Row<Val>>, items: Row<Val>) -> Option<Val>
    ensures { option_map pure_val result ≡ matrix_value (option_map (map pure_val) index) (map pure_val items) }
{
    match index {
        Some(index) => {
            if index.len() == items.len() {
                Some(Val::Matrix(index, items))
            } else {
                None
            }
        }
        None => None,
    }
}

/// The value of a view, none of whose tables is there. `NoMemory` where it names no table.
#[tactic(auto, using(crate::proofs::Views::without_tables))]
pub(crate) fn view_value(
    view: &View,
    _env: &Risen,
    _bound: &[Binding],
) -> Result<Option<Val>, OperateNo>
    ensures ok { IfOk result (λ o. option_map pure_val o ≡ meaning (pure_view view.now) (env_at _env.now _bound.now)) }
    ensures big { result ≡ Err Big → is_large (pure_view view.now) (env_at _env.now _bound.now) ≡ true }
{
    match view.cells.as_slice().split_first() {
        None => Err(OperateNo::NoMemory),
        Some((_, _)) => Ok(unseen(&view.dom)),
    }
}

/// What stands for a value that isn't there: false where it is a truth value.
fn unseen(dom: &Dom) -> Option<Val>
    ensures { option_map pure_val result ≡ false_where_undefined (is_bool_dom (pure_dom dom.now)) None }
{
    match dom {
        Dom::Bool => Some(Val::Truth(false)),
        _ => None,
    }
}
