ghost use Rattle.std.specs.Prelude.{◌≡◌, IfOk, true, false, Some, [], ◌∷◌, option_map};
ghost use Rattle.ess_semantics.specs.Large.{in_64_bits, is_big};
ghost use Rattle.ess_semantics.specs.Operators.{number_in as the_number, truth_in as the_truth};
ghost use Rattle.ess_core.specs.ValueViews.{pure_val};
ghost use Rattle.ess_eval_operators.specs.declared.OperateNo.TheVariants.{Big};
ghost use Rattle.ess_eval.specs.Folds.{Taken, begun as begun_of, pure_fold, list_in, total_in, each_in, one_in, word_in};

use crate::marking::word_value1;
use ess_core::{Fun, NoMemory, Row, Val};
use ess_eval_operators::{OperateNo, list_of};
use std::alloc::Global;

/// What becomes of the items of a comprehension as they come.
#[derive(Drop)]
pub(crate) enum Fold {
    /// They are kept, in their order.
    Items(Row<Val>),
    /// They are added up. What stands in the middle may be outside 64 bits.
    Sum(i128),
    /// Whether each so far is true.
    Each(bool),
    /// Whether one so far is true.
    One(bool),
}

/// Takes one item more. False where it decides already, whatever comes. `NoMemory` where there is no room for it, or for
/// a sum in 128 bits.
#[tactic(auto, using(crate::proofs::Takings::takes))]
pub(crate) fn take(fold: &mut Fold, val: Val) -> Result<bool, NoMemory>
    ensures { IfOk result (λ t. Taken t (pure_fold fold.old) (pure_fold fold.new) (Some (pure_val val ∷ []))) }
{
    match fold {
        Fold::Items(items) => {
            items.push(val)?;
            Ok(true)
        }
        Fold::Sum(total) => {
            let number = number_in(&val);
            drop(val);
            match total.checked_add(number as i128) {
                Some(sum) => {
                    *total = sum;
                    Ok(true)
                }
                None => Err(NoMemory),
            }
        }
        Fold::Each(each) => {
            let truth = truth_in(&val);
            drop(val);
            if !truth {
                *each = false;
            }
            Ok(truth)
        }
        Fold::One(one) => {
            let truth = truth_in(&val);
            drop(val);
            if truth {
                *one = true;
            }
            Ok(true)
        }
    }
}

/// The whole number that a sum reads: 0 for any other value.
fn number_in(val: &Val) -> i64
    ensures { result ≡ the_number (pure_val val.now) }
{
    match val {
        Val::Num(number) => *number,
        _ => 0,
    }
}

/// The truth value that `and` and `or` read: false for any other value.
fn truth_in(val: &Val) -> bool
    ensures { result ≡ the_truth (pure_val val.now) }
{
    match val {
        Val::Truth(truth) => *truth,
        _ => false,
    }
}

/// How a function word begins: the words that can be computed of items as they come need no list of them.
pub(crate) fn begun(alloc: Global, fun: Fun) -> Fold
    ensures { pure_fold result ≡ begun_of fun }
{
    match fun {
        Fun::Sum => Fold::Sum(0),
        Fun::And => Fold::Each(true),
        Fun::Or => Fold::One(false),
        _ => Fold::Items(Row::new(alloc)),
    }
}

/// The list of the items that were taken, where each is there.
pub(crate) fn list_kept(alloc: Global, there: bool, fold: Fold) -> Result<Option<Val>, NoMemory>
    ensures { IfOk result (λ o. option_map pure_val o ≡ list_in there (pure_fold fold)) }
{
    if !there {
        drop(fold);
        return Ok(None);
    }
    match fold {
        Fold::Items(items) => Ok(Some(list_of(alloc, items)?)),
        _ => Err(NoMemory),
    }
}

/// The sum of the items that were taken, where each is there.
fn sum_kept(there: bool, fold: Fold) -> Result<Option<i64>, OperateNo>
    ensures ok { IfOk result (λ o. o ≡ total_in there (pure_fold fold)) }
    ensures big { result ≡ Err Big → option_map in_64_bits (total_in there (pure_fold fold)) ≡ Some false }
{
    if !there {
        drop(fold);
        return Ok(None);
    }
    match fold {
        Fold::Sum(total) => Ok(Some(narrow(total)?)),
        other => {
            drop(other);
            Err(OperateNo::NoMemory)
        }
    }
}

/// Whether each item is there and true.
fn each_kept(there: bool, fold: Fold) -> Result<bool, NoMemory>
    ensures { IfOk result (λ b. b ≡ each_in there (pure_fold fold)) }
{
    if !there {
        drop(fold);
        return Ok(false);
    }
    match fold {
        Fold::Each(each) => Ok(each),
        other => {
            drop(other);
            Err(NoMemory)
        }
    }
}

/// Whether each item is there and one is true.
fn one_kept(there: bool, fold: Fold) -> Result<bool, NoMemory>
    ensures { IfOk result (λ b. b ≡ one_in there (pure_fold fold)) }
{
    if !there {
        drop(fold);
        return Ok(false);
    }
    match fold {
        Fold::One(one) => Ok(one),
        other => {
            drop(other);
            Err(NoMemory)
        }
    }
}

/// The value of a function word on the items that were taken.
#[tactic(auto, using(crate::proofs::Takings::sum_big))]
pub(crate) fn word_kept(
    alloc: Global,
    fun: Fun,
    there: bool,
    fold: Fold,
) -> Result<Option<Val>, OperateNo>
    ensures ok { IfOk result (λ o. option_map pure_val o ≡ word_in fun there (pure_fold fold)) }
    ensures big { result ≡ Err Big → is_big (word_in fun there (pure_fold fold)) ≡ true }
{
    match fun {
        Fun::Sum => Ok(sum_kept(there, fold)?.map(Val::Num)),
        Fun::And => Ok(Some(Val::Truth(each_kept(there, fold)?))),
        Fun::Or => Ok(Some(Val::Truth(one_kept(there, fold)?))),
        _ => {
            let list = list_kept(alloc, there, fold)?;
            let found = word_value1(alloc, false, fun, list.as_ref());
            drop(list);
            found
        }
    }
}

/// The number, where it is in 64 bits.
fn narrow(number: i128) -> Result<i64, OperateNo>
    ensures ok { IfOk result (λ n. n ≡ number) }
    ensures big { result ≡ Err Big → in_64_bits number ≡ false }
{
    if number < -9223372036854775807 {
        return Err(OperateNo::Big);
    }
    if number > 9223372036854775807 {
        return Err(OperateNo::Big);
    }
    Ok(number as i64)
}
