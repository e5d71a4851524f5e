ghost use Rattle.std.specs.Prelude.{◌≡◌, IfOk, ◌∷◌, map, option_map};
ghost use Rattle.std.specs.Option.{option_copied};
ghost use Rattle.ess_semantics.specs.Lists.{or_default};
ghost use Rattle.ess_semantics.specs.Trees.{index};
ghost use Rattle.ess_semantics.specs.Operators.{value_of_node, misfit, item_at as the_item_at, at_index, at_component, at_field, path_value, component as the_component, field_at as the_field_at};
ghost use Rattle.ess_semantics.specs.Values.{of_list};
ghost use Rattle.ess_semantics.specs.Names.{keys};
ghost use Rattle.ess_core.specs.ValueViews.{pure_val, pure_vals, pure_field_val};
ghost use Rattle.ess_core.specs.TreeViews.{pure_step, words_of};

use crate::comparisons::same;
use crate::functions::copied;
use crate::operands::present;
use ess_core::{FieldVal, NoMemory, Step, Text, Val};
use std::alloc::Global;
use std::cmp::Ordering;

/// The value behind the steps of an index, where what is indexed and the value of each step by value are there; `at` has
/// these values in order. `NoMemory` where there is no room for it.
#[tactic(auto, using(crate::proofs::Steps::steps))]
pub fn value_at_steps(
    alloc: Global,
    of: Option<&Val>,
    steps: &[Step],
    at: &[Option<Val>],
) -> Result<Option<Val>, NoMemory>
    ensures { IfOk result (λ o. option_map pure_val o
        ≡ value_of_node (index (words_of (map pure_step steps.now)))
        (option_map pure_val (option_copied of.entry) ∷ map (option_map pure_val) at.now)) }
{
    match of {
        Some(val) => match present(alloc, at)? {
            Some(vals) => reached(alloc, Some(val), steps, vals.as_slice()),
            None => Ok(None),
        },
        None => Ok(None),
    }
}

/// The value behind the steps, from what was reached; nothing stands for the value of a misfit.
fn reached(
    alloc: Global,
    here: Option<&Val>,
    steps: &[Step],
    at: &[Val],
) -> Result<Option<Val>, NoMemory>
    ensures { IfOk result (λ o. option_map pure_val o
        ≡ path_value (or_default (option_map pure_val (option_copied here.entry)) misfit) (words_of (map pure_step steps.now))
        (map pure_val at.now)) }
{
    match steps.split_first() {
        None => {
            if at.is_empty() {
                or_misfit(alloc, here)
            } else {
                Ok(Some(Val::Truth(false)))
            }
        }
        Some((Step::Value(_), rest)) => match at.split_first() {
            Some((place, more)) => match item_of(here, place) {
                Some(item) => reached(alloc, Some(item), rest, more),
                None => Ok(None),
            },
            None => Ok(Some(Val::Truth(false))),
        },
        Some((Step::Component(k), rest)) => reached(alloc, component_of(here, *k), rest, at),
        Some((Step::Field(name), rest)) => reached(alloc, field_of(here, name), rest, at),
    }
}

/// A copy of what was reached, or the value of a misfit. `NoMemory` where there is no room for it.
fn or_misfit(alloc: Global, here: Option<&Val>) -> Result<Option<Val>, NoMemory>
    ensures { IfOk result (λ o. option_map pure_val o ≡ Some (or_default (option_map pure_val (option_copied here.entry)) misfit)) }
{
    match here {
        Some(val) => match val.copy(alloc) {
            Ok(copy) => Ok(Some(copy)),
            Err(no) => Err(no),
        },
        None => Ok(Some(Val::Truth(false))),
    }
}

/// The item of what was reached at an index, where it is a matrix with this index.
#[tactic(auto, using(crate::proofs::Steps::steps))]
fn item_of<'a>(here: Option<&'a Val>, at: &Val) -> Option<&'a Val>
    ensures { option_map pure_val (option_copied result)
        ≡ at_index (or_default (option_map pure_val (option_copied here.entry)) misfit) (pure_val at.now) }
{
    match here {
        Some(Val::Matrix(index, items)) => item_at(index.as_slice(), items.as_slice(), at),
        _ => None,
    }
}

/// The item that stands beside an index.
#[tactic(auto, using(crate::proofs::Steps::steps))]
fn item_at<'a>(index: &[Val], items: &'a [Val], at: &Val) -> Option<&'a Val>
    ensures { option_map pure_val (option_copied result) ≡ the_item_at (pure_vals index.now) (pure_vals items.now) (pure_val at.now) }
{
    for (i, place) in index.iter().enumerate() {
        if i >= items.len() {
            return None;
        }
        if same(place, at) {
            return Some(&items[i]);
        }
    }
    None
}

/// The component of what was reached, counted from 1, where it is a tuple that has it.
#[tactic(auto, using(crate::proofs::Steps::steps))]
fn component_of(here: Option<&Val>, k: u64) -> Option<&Val>
    ensures { or_default (option_map pure_val (option_copied result)) misfit
        ≡ at_component (or_default (option_map pure_val (option_copied here.entry)) misfit) k }
{
    match here {
        Some(Val::Tuple(parts)) => component(parts.as_slice(), k),
        _ => None,
    }
}

/// The component, counted from 1, where there is one.
#[tactic(auto, using(crate::proofs::Steps::steps))]
fn component(parts: &[Val], k: u64) -> Option<&Val>
    ensures { option_map pure_val (option_copied result) ≡ the_component (pure_vals parts.now) k }
{
    if k == 0 {
        return None;
    }
    let place = (k - 1) as usize;
    if place >= parts.len() {
        return None;
    }
    Some(&parts[place])
}

/// The field of what was reached, where it is a record that has it.
#[tactic(auto, using(crate::proofs::Steps::steps))]
fn field_of<'a>(here: Option<&'a Val>, name: &Text) -> Option<&'a Val>
    ensures { or_default (option_map pure_val (option_copied result)) misfit
        ≡ at_field (or_default (option_map pure_val (option_copied here.entry)) misfit) name.now }
{
    match here {
        Some(Val::Rec(fields)) => field_at(fields.as_slice(), name),
        _ => None,
    }
}

/// The value of the field with this name, where there is one.
fn field_at<'a>(fields: &'a [FieldVal], name: &Text) -> Option<&'a Val>
    ensures { option_map pure_val (option_copied result)
        ≡ the_field_at (keys (map pure_field_val fields.now)) (of_list (map (λ f. f.1) (map pure_field_val fields.now))) name.now }
{
    for field in fields {
        if field.name.cmp(name) == Ordering::Equal {
            return Some(&field.val);
        }
    }
    None
}
