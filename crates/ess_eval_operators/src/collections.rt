ghost use Rattle.std.specs.Prelude.{◌≡◌, IfOk, true, option_map, ◌++◌, map, filter, not, nat_le};
ghost use Rattle.std.specs.List.{list_all};
ghost use Rattle.ess_semantics.specs.Collections.{holds as is_held, count as the_count, sorted_once as the_sorted_once};
ghost use Rattle.ess_semantics.specs.Values.{items_of as the_items};
ghost use Rattle.ess_semantics.specs.Large.{is_big};
ghost use Rattle.ess_semantics.specs.Operators.{within as is_within, of_same_kind, value_of_binary};
ghost use Rattle.ess_semantics.specs.declared.words.Op2.{Op2 as BinaryOp};
ghost use Rattle.ess_core.specs.ValueViews.{pure_val};
ghost use Rattle.ess_eval_operators.specs.declared.OperateNo.TheVariants.{Big};

use crate::OperateNo;
use crate::items::{items_of, listed, spare};
use crate::members::{holds, remaining, shared, sorted_once, within};
use crate::numbers::{minus, number_in};
use ess_core::{NoMemory, Row, Val};
use std::alloc::Global;

/// Whether a value is among the items of another one. `NoMemory` where there is no room to tell.
#[tactic(auto, using(crate::proofs::ItemLists::listed_items))]
pub(crate) fn member(alloc: Global, val: &Val, of: &Val) -> Result<bool, NoMemory>
    ensures { IfOk result (λ r. r ≡ is_held (the_items (pure_val of.now)) (pure_val val.now)) }
{
    let spare = spare(alloc, of)?;
    Ok(holds(listed(of, spare.as_slice()), val))
}

/// Whether every item of a value is one of another at least as often. `NoMemory` where there is no room to tell.
#[tactic(auto, using(crate::proofs::ItemLists::listed_items))]
pub(crate) fn included(alloc: Global, a: &Val, b: &Val) -> Result<bool, NoMemory>
    ensures { IfOk result (λ r. r ≡ is_within (pure_val a.now) (pure_val b.now)) }
{
    let spare = spare(alloc, a)?;
    all_in(alloc, listed(a, spare.as_slice()), b)
}

/// Whether every item of a list is one of a value at least as often. `NoMemory` where there is no room to tell.
#[tactic(auto, using(crate::proofs::ItemLists::listed_items))]
fn all_in(alloc: Global, items: &[Val], b: &Val) -> Result<bool, NoMemory>
    ensures { IfOk result (λ r. r ≡ list_all
        (λ x. nat_le (the_count (map pure_val items.now) x) (the_count (the_items (pure_val b.now)) x)) (map pure_val items.now)) }
{
    let spare = spare(alloc, b)?;
    Ok(within(items, listed(b, spare.as_slice())))
}

/// The items of both, as a value of the kind of the first. `NoMemory` where there is no room for them, and where no value
/// of that kind has them, which may be so for a matrix, a record or a function alone.
pub(crate) fn intersection(alloc: Global, a: &Val, b: &Val) -> Result<Val, NoMemory>
    ensures { IfOk result (λ v. pure_val v
        ≡ of_same_kind (pure_val a.now) (filter (λ x. is_held (the_items (pure_val b.now)) x) (the_items (pure_val a.now)))) }
{
    let kept = both(alloc, a, b)?;
    of_kind(alloc, a, kept)
}

/// Copies of the items of both, in the order of the first. `NoMemory` where there is no room for them.
#[tactic(auto, using(crate::proofs::ItemLists::listed_items))]
fn both(alloc: Global, a: &Val, b: &Val) -> Result<Row<Val>, NoMemory>
    ensures { IfOk result (λ r. map pure_val r ≡ filter (λ x. is_held (the_items (pure_val b.now)) x) (the_items (pure_val a.now))) }
{
    let spare = spare(alloc, a)?;
    those_in(alloc, listed(a, spare.as_slice()), b)
}

/// Copies of the values that are items of b. `NoMemory` where there is no room for them.
#[tactic(auto, using(crate::proofs::ItemLists::listed_items))]
fn those_in(alloc: Global, items: &[Val], b: &Val) -> Result<Row<Val>, NoMemory>
    ensures { IfOk result (λ r. map pure_val r ≡ filter (λ x. is_held (the_items (pure_val b.now)) x) (map pure_val items.now)) }
{
    let spare = spare(alloc, b)?;
    shared(alloc, items, listed(b, spare.as_slice()))
}

/// The items of either, sorted and each once, as a value of the kind of the first. `NoMemory` as for the items of both.
pub(crate) fn union(alloc: Global, a: &Val, b: &Val) -> Result<Val, NoMemory>
    ensures { IfOk result (λ v. pure_val v
        ≡ of_same_kind (pure_val a.now) (the_sorted_once (the_items (pure_val a.now) ++ the_items (pure_val b.now)))) }
{
    let mut all = items_of(alloc, a)?;
    let mut more = items_of(alloc, b)?;
    all.append(&mut more)?;
    let sorted = sorted_once(alloc, all)?;
    of_kind(alloc, a, sorted)
}

/// The items of the first that aren't items of the second, or the difference of two numbers. `NoMemory` as for the items of
/// both.
#[tactic(auto, using(crate::proofs::Differences::differences))]
pub(crate) fn difference(alloc: Global, a: &Val, b: &Val) -> Result<Option<Val>, OperateNo>
    ensures ok { IfOk result (λ o. option_map pure_val o ≡ value_of_binary BinaryOp.Minus (pure_val a.now) (pure_val b.now)) }
    ensures big { result ≡ Err Big → is_big (value_of_binary BinaryOp.Minus (pure_val a.now) (pure_val b.now)) ≡ true }
{
    match a {
        Val::Num(number) => Ok(Some(Val::Num(minus(*number, number_in(b))?))),
        Val::Truth(_) => Ok(Some(Val::Num(minus(0, number_in(b))?))),
        Val::Item(_, _) => Ok(Some(Val::Num(minus(0, number_in(b))?))),
        Val::Tuple(parts) => Ok(Some(Val::Tuple(less(alloc, parts.as_slice(), b)?))),
        Val::Set(members) => Ok(Some(Val::Set(less(alloc, members.as_slice(), b)?))),
        Val::MSet(members) => Ok(Some(Val::MSet(less(alloc, members.as_slice(), b)?))),
        Val::Relation(tuples) => Ok(Some(Val::Relation(less(alloc, tuples.as_slice(), b)?))),
        Val::Partition(parts) => Ok(Some(Val::Partition(less(alloc, parts.as_slice(), b)?))),
        Val::Function(_) => Err(OperateNo::NoMemory),
        Val::Rec(_) => Err(OperateNo::NoMemory),
        Val::Matrix(_, _) => Err(OperateNo::NoMemory),
    }
}

/// Copies of the values that aren't items of b. `NoMemory` where there is no room for them.
#[tactic(auto, using(crate::proofs::ItemLists::listed_items))]
fn less(alloc: Global, items: &[Val], b: &Val) -> Result<Row<Val>, NoMemory>
    ensures { IfOk result (λ r. map pure_val r ≡ filter (λ x. not (is_held (the_items (pure_val b.now)) x)) (map pure_val items.now)) }
{
    let spare = spare(alloc, b)?;
    remaining(alloc, items, listed(b, spare.as_slice()))
}

/// The items as a value of the kind of another one; that one itself where it has no items. `NoMemory` where there is no room
/// for it, and for a matrix, a record or a function.
pub(crate) fn of_kind(alloc: Global, like: &Val, items: Row<Val>) -> Result<Val, NoMemory>
    ensures { IfOk result (λ v. pure_val v ≡ of_same_kind (pure_val like.now) (map pure_val items)) }
{
    match like {
        Val::Num(_) => like.copy(alloc),
        Val::Truth(_) => like.copy(alloc),
        Val::Item(_, _) => like.copy(alloc),
        Val::Tuple(_) => Ok(Val::Tuple(items)),
        Val::Set(_) => Ok(Val::Set(items)),
        Val::MSet(_) => Ok(Val::MSet(items)),
        Val::Relation(_) => Ok(Val::Relation(items)),
        Val::Partition(_) => Ok(Val::Partition(items)),
        Val::Function(_) => Err(NoMemory),
        Val::Rec(_) => Err(NoMemory),
        Val::Matrix(_, _) => Err(NoMemory),
    }
}
