ghost use Rattle.std.specs.Prelude.{◌≡◌, IfOk, true, false, [], ◌∷◌, map, filter, option_map, pos};
ghost use Rattle.std.specs.List.{list_any};
ghost use Rattle.std.specs.Option.{option_copied};
ghost use Rattle.ess_semantics.specs.Trees.{word as a_word};
ghost use Rattle.ess_semantics.specs.Values.{items_of as the_items, from_of as the_from, to_of as the_to};
ghost use Rattle.ess_semantics.specs.Collections.{count as the_count};
ghost use Rattle.ess_semantics.specs.Order.{same as are_same};
ghost use Rattle.ess_semantics.specs.Large.{is_big, in_64_bits};
ghost use Rattle.ess_semantics.specs.Operators.{value_of_node, value_of_word1 as of_word1, value_of_word2 as of_word2, part_with as the_part_with, within as is_within};
ghost use Rattle.ess_core.specs.ValueViews.{pure_val};
ghost use Rattle.ess_eval_operators.specs.declared.OperateNo.TheVariants.{Big};

use crate::OperateNo;
use crate::folds::{all_different, all_true, any_true, greatest, least, product, sum, truth_in};
use crate::functions::{arguments, arguments_of, copied, image, results};
use crate::items::{copies, listed, spare};
use crate::members::{count, sorted_once};
use crate::numbers::kept;
use crate::partitions::{part_with, participants, together};
use ess_core::{NoMemory, Row, Val};
use ess_semantics::words::Fun;
use ess_values::{mset_of, set_of};
use std::alloc::Global;

/// The value of a call of a function word on one operand, which may have no value: then the call has none. `Big` where the
/// answer is a number outside 64 bits, `NoMemory` where there is no room for it.
pub fn value_of_word1(alloc: Global, word: Fun, a: Option<&Val>) -> Result<Option<Val>, OperateNo>
    ensures ok { IfOk result (λ o. option_map pure_val o ≡ value_of_node (a_word word) (option_map pure_val (option_copied a.entry) ∷ [])) }
    ensures big { result ≡ Err Big → is_big (value_of_node (a_word word) (option_map pure_val (option_copied a.entry) ∷ [])) ≡ true }
{
    match a {
        Some(val) => of_one(alloc, word, val),
        None => Ok(None),
    }
}

/// The value of a call of a function word on two operands, each of which may have no value: then the call has none. `Big`
/// where the answer is a number outside 64 bits, `NoMemory` where there is no room for it.
pub fn value_of_word2(
    alloc: Global,
    word: Fun,
    a: Option<&Val>,
    b: Option<&Val>,
) -> Result<Option<Val>, OperateNo>
    ensures ok { IfOk result (λ o. option_map pure_val o
        ≡ value_of_node (a_word word) (option_map pure_val (option_copied a.entry) ∷ option_map pure_val (option_copied b.entry) ∷ [])) }
    ensures big { result ≡ Err Big
        → is_big (value_of_node (a_word word)
        (option_map pure_val (option_copied a.entry) ∷ option_map pure_val (option_copied b.entry) ∷ [])) ≡ true }
{
    match a {
        Some(left) => match b {
            Some(right) => of_two(alloc, word, left, right),
            None => Ok(None),
        },
        None => Ok(None),
    }
}

/// The value of a function word on one value.
#[tactic(auto, using(crate::proofs::ItemLists::listed_items))]
fn of_one(alloc: Global, word: Fun, val: &Val) -> Result<Option<Val>, OperateNo>
    ensures ok { IfOk result (λ o. option_map pure_val o ≡ of_word1 word (pure_val val.now)) }
    ensures big { result ≡ Err Big → is_big (of_word1 word (pure_val val.now)) ≡ true }
{
    let spare = spare(alloc, val)?;
    of_items(alloc, word, val, listed(val, spare.as_slice()))
}

/// The value of a function word on a value with these items.
fn of_items(alloc: Global, word: Fun, val: &Val, items: &[Val]) -> Result<Option<Val>, OperateNo>
    requires { map pure_val items.now ≡ the_items (pure_val val.now) }
    ensures ok { IfOk result (λ o. option_map pure_val o ≡ of_word1 word (pure_val val.now)) }
    ensures big { result ≡ Err Big → is_big (of_word1 word (pure_val val.now)) ≡ true }
{
    match word {
        Fun::Sum => Ok(Some(Val::Num(sum(items)?))),
        Fun::Product => Ok(Some(Val::Num(product(items)?))),
        Fun::And => Ok(Some(Val::Truth(all_true(items)))),
        Fun::Or => Ok(Some(Val::Truth(any_true(items)))),
        Fun::Min => Ok(copied(alloc, least(items))?),
        Fun::Max => Ok(copied(alloc, greatest(items))?),
        Fun::AllDiff => Ok(Some(Val::Truth(all_different(items)))),
        Fun::ToInt => Ok(Some(Val::Num(if truth_in(val) { 1 } else { 0 }))),
        Fun::Defined => Ok(Some(set_of(alloc, arguments(alloc, items)?)?)),
        Fun::Range => Ok(Some(set_of(alloc, results(alloc, items)?)?)),
        Fun::ToSet => Ok(Some(set_of(alloc, copies(alloc, items)?)?)),
        Fun::ToMSet => Ok(Some(mset_of(alloc, copies(alloc, items)?)?)),
        Fun::ToRelation => Ok(Some(Val::Relation(sorted_once(alloc, copies(alloc, items)?)?))),
        Fun::Parts => Ok(Some(set_of(alloc, copies(alloc, items)?)?)),
        Fun::Participants => Ok(Some(set_of(alloc, participants(alloc, items)?)?)),
        Fun::Image => Ok(Some(Val::Truth(false))),
        Fun::PreImage => Ok(Some(Val::Truth(false))),
        Fun::Freq => Ok(Some(Val::Truth(false))),
        Fun::Party => Ok(Some(Val::Truth(false))),
        Fun::Together => Ok(Some(Val::Truth(false))),
    }
}

/// The value of a function word on two values.
#[tactic(auto, using(crate::proofs::WordMisfits::misfit_of_two))]
fn of_two(alloc: Global, word: Fun, a: &Val, b: &Val) -> Result<Option<Val>, OperateNo>
    ensures ok { IfOk result (λ o. option_map pure_val o ≡ of_word2 word (pure_val a.now) (pure_val b.now)) }
    ensures big { result ≡ Err Big → is_big (of_word2 word (pure_val a.now) (pure_val b.now)) ≡ true }
{
    match word {
        Fun::Image => Ok(image(alloc, a, b)?),
        Fun::PreImage => Ok(Some(set_of(alloc, origins(alloc, a, b)?)?)),
        Fun::Freq => Ok(Some(Val::Num(frequency(alloc, a, b)?))),
        Fun::Party => Ok(party(alloc, a, b)?),
        Fun::Together => Ok(Some(Val::Truth(joined(alloc, a, b)?))),
        _ => Ok(Some(Val::Truth(false))),
    }
}

/// Copies of the arguments at which a function has a value. `NoMemory` where there is no room for them.
#[tactic(auto, using(crate::proofs::ItemLists::listed_items))]
fn origins(alloc: Global, function: &Val, to: &Val) -> Result<Row<Val>, NoMemory>
    ensures { IfOk result (λ r. map pure_val r
        ≡ map the_from (filter (λ p. are_same (the_to p) (pure_val to.now)) (the_items (pure_val function.now)))) }
{
    let spare = spare(alloc, function)?;
    arguments_of(alloc, listed(function, spare.as_slice()), to)
}

/// How often a value is among the items of another one.
#[tactic(auto, using(crate::proofs::ItemLists::listed_items))]
fn frequency(alloc: Global, of: &Val, val: &Val) -> Result<i64, OperateNo>
    ensures ok { IfOk result (λ n. n ≡ pos (the_count (the_items (pure_val of.now)) (pure_val val.now))) }
    ensures big { result ≡ Err Big → in_64_bits (pos (the_count (the_items (pure_val of.now)) (pure_val val.now))) ≡ false }
{
    let spare = spare(alloc, of)?;
    kept(count(listed(of, spare.as_slice()), val) as i128)
}

/// A copy of the first part of a partition with this member. `NoMemory` where there is no room for it, or to tell.
#[tactic(auto, using(crate::proofs::ItemLists::listed_items))]
fn party(alloc: Global, val: &Val, partition: &Val) -> Result<Option<Val>, NoMemory>
    ensures { IfOk result (λ o. option_map pure_val o ≡ the_part_with (the_items (pure_val partition.now)) (pure_val val.now)) }
{
    let spare = spare(alloc, partition)?;
    part_with(alloc, listed(partition, spare.as_slice()), val)
}

/// Whether some part of a partition holds every member of a value. `NoMemory` where there is no room to tell.
#[tactic(auto, using(crate::proofs::ItemLists::listed_items))]
fn joined(alloc: Global, members: &Val, partition: &Val) -> Result<bool, NoMemory>
    ensures { IfOk result (λ r. r ≡ list_any (λ q. is_within (pure_val members.now) q) (the_items (pure_val partition.now))) }
{
    let spare = spare(alloc, partition)?;
    together(alloc, members, listed(partition, spare.as_slice()))
}
