ghost use Rattle.std.specs.Prelude.{◌≡◌, IfOk, map, filter, option_map};
ghost use Rattle.std.specs.Option.{option_copied};
ghost use Rattle.ess_semantics.specs.Collections.{value_at as the_value_at};
ghost use Rattle.ess_semantics.specs.Order.{same as are_same};
ghost use Rattle.ess_semantics.specs.Values.{from_of as the_from, to_of as the_to, items_of as the_items};
ghost use Rattle.ess_core.specs.ValueViews.{pure_val, pure_pair};

use crate::comparisons::same;
use crate::items::{listed, spare};
use ess_core::{NoMemory, Pair, Row, Val};
use std::alloc::Global;

/// A copy of what was found. `NoMemory` where there is no room for it.
pub(crate) fn copied(alloc: Global, found: Option<&Val>) -> Result<Option<Val>, NoMemory>
    ensures { IfOk result (λ o. o ≡ option_copied found.entry) }
{
    match found {
        Some(val) => match val.copy(alloc) {
            Ok(copy) => Ok(Some(copy)),
            Err(no) => Err(no),
        },
        None => Ok(None),
    }
}

/// The first part of a tuple of two; any other value itself.
#[tactic(auto, using(crate::proofs::PairParts::pair_parts))]
pub(crate) fn from_of(val: &Val) -> &Val
    ensures { pure_val result.now ≡ the_from (pure_val val.now) }
{
    match val {
        Val::Tuple(parts) => {
            if parts.len() == 2 {
                &parts.as_slice()[0]
            } else {
                val
            }
        }
        _ => val,
    }
}

/// The second part of a tuple of two; any other value itself.
#[tactic(auto, using(crate::proofs::PairParts::pair_parts))]
pub(crate) fn to_of(val: &Val) -> &Val
    ensures { pure_val result.now ≡ the_to (pure_val val.now) }
{
    match val {
        Val::Tuple(parts) => {
            if parts.len() == 2 {
                &parts.as_slice()[1]
            } else {
                val
            }
        }
        _ => val,
    }
}

/// The value of a function, given by its pairs, at an argument.
pub(crate) fn value_at_pairs<'a>(pairs: &'a [Pair], at: &Val) -> Option<&'a Val>
    ensures { option_map pure_val (option_copied result) ≡ the_value_at (map pure_pair pairs.now) (pure_val at.now) }
{
    for pair in pairs {
        if same(&pair.from, at) {
            return Some(&pair.to);
        }
    }
    None
}

/// The value of a function, given by its pairs as values, at an argument.
pub(crate) fn value_at_items<'a>(items: &'a [Val], at: &Val) -> Option<&'a Val>
    ensures { option_map pure_val (option_copied result) ≡ the_value_at (map pure_val items.now) (pure_val at.now) }
{
    for item in items {
        if same(from_of(item), at) {
            return Some(to_of(item));
        }
    }
    None
}

/// A copy of the value of a function at an argument, where it has one. `NoMemory` where there is no room for it.
#[tactic(auto, using(crate::proofs::ItemLists::listed_items, crate::proofs::PairParts::pairs_read))]
pub(crate) fn image(alloc: Global, function: &Val, at: &Val) -> Result<Option<Val>, NoMemory>
    ensures { IfOk result (λ o. option_map pure_val o ≡ the_value_at (the_items (pure_val function.now)) (pure_val at.now)) }
{
    if let Val::Function(pairs) = function {
        return copied(alloc, value_at_pairs(pairs.as_slice(), at));
    }
    let spare = spare(alloc, function)?;
    copied(
        alloc,
        value_at_items(listed(function, spare.as_slice()), at),
    )
}

/// Copies of the first parts of pairs. `NoMemory` where there is no room for them.
pub(crate) fn arguments(alloc: Global, items: &[Val]) -> Result<Row<Val>, NoMemory>
    ensures { IfOk result (λ r. map pure_val r ≡ map the_from (map pure_val items.now)) }
{
    let mut found = Row::with_capacity(alloc, items.len())?;
    for item in items {
        match from_of(item).copy(alloc) {
            Ok(copy) => found.push(copy)?,
            Err(no) => return Err(no),
        }
    }
    Ok(found)
}

/// Copies of the second parts of pairs. `NoMemory` where there is no room for them.
pub(crate) fn results(alloc: Global, items: &[Val]) -> Result<Row<Val>, NoMemory>
    ensures { IfOk result (λ r. map pure_val r ≡ map the_to (map pure_val items.now)) }
{
    let mut found = Row::with_capacity(alloc, items.len())?;
    for item in items {
        match to_of(item).copy(alloc) {
            Ok(copy) => found.push(copy)?,
            Err(no) => return Err(no),
        }
    }
    Ok(found)
}

/// Copies of the first parts of the pairs whose second part is this value. `NoMemory` where there is no room for them.
pub(crate) fn arguments_of(alloc: Global, items: &[Val], to: &Val) -> Result<Row<Val>, NoMemory>
    ensures { IfOk result (λ r. map pure_val r
        ≡ map the_from (filter (λ p. are_same (the_to p) (pure_val to.now)) (map pure_val items.now))) }
{
    let mut found = Row::new(alloc);
    for item in items {
        if same(to_of(item), to) {
            match from_of(item).copy(alloc) {
                Ok(copy) => found.push(copy)?,
                Err(no) => return Err(no),
            }
        }
    }
    Ok(found)
}
