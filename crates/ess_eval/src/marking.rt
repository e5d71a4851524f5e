ghost use Rattle.std.specs.Prelude.{◌≡◌, ◌∷◌, [], IfOk, true, is_some, map, option_map};
ghost use Rattle.std.specs.Option.{option_copied};
ghost use Rattle.ess_semantics.specs.Trees.{unary, binary, word, index, application, is_truth_op1 as is_true_op1, is_truth_op2 as is_true_op2, is_truth_word as is_true_word};
ghost use Rattle.ess_semantics.specs.Operators.{value_of_node, false_where_undefined};
ghost use Rattle.ess_semantics.specs.Large.{is_big};
ghost use Rattle.ess_semantics.specs.Lists.{all_some};
ghost use Rattle.ess_core.specs.ValueViews.{pure_val};
ghost use Rattle.ess_core.specs.TreeViews.{call_mark as mark_of_call, words_of, pure_step};
ghost use Rattle.ess_eval_operators.specs.declared.OperateNo.TheVariants.{Big};

use crate::reading::truth_of;
use ess_core::{Fun, Op1, Op2, Row, Step, Val};
use ess_eval_operators::{
    OperateNo, settle, value_at_steps, value_of_application, value_of_binary, value_of_unary,
    value_of_word1, value_of_word2,
};
use std::alloc::Global;

/// Whether an operator with one operand gives a truth value.
fn is_truth_op1(op: Op1) -> bool
    ensures { result ≡ is_true_op1 op }
{
    matches!(op, Op1::Not)
}

/// Whether an operator with two operands gives a truth value.
fn is_truth_op2(op: Op2) -> bool
    ensures { result ≡ is_true_op2 op }
{
    match op {
        Op2::Pow | Op2::Times | Op2::Div | Op2::Mod => false,
        Op2::Intersect | Op2::Plus | Op2::Minus | Op2::Union => false,
        _ => true,
    }
}

/// Whether a call is Boolean.
fn call_mark(mark: bool, fun: Fun) -> bool
    ensures { result ≡ mark_of_call mark fun }
{
    let truth = matches!(fun, Fun::And | Fun::Or | Fun::AllDiff | Fun::Together);
    if mark { !truth } else { truth }
}

/// The value of an operator's node on one operand.
#[tactic(auto, using(crate::proofs::Marks::big_is_false))]
pub(crate) fn unary_value(alloc: Global, op: Op1, a: Option<Val>) -> Result<Option<Val>, OperateNo>
    ensures ok { IfOk result (λ o. option_map pure_val o ≡ false_where_undefined (is_true_op1 op) (value_of_node (unary op) (option_map pure_val a ∷ []))) }
    ensures big { result ≡ Err Big → is_big (false_where_undefined (is_true_op1 op) (value_of_node (unary op) (option_map pure_val a ∷ []))) ≡ true }
{
    let found = value_of_unary(alloc, op, a.as_ref());
    drop(a);
    if !is_truth_op1(op) {
        return found;
    }
    match found {
        Ok(found) => Ok(Some(Val::Truth(truth_of(found)))),
        Err(OperateNo::Big) => Ok(Some(Val::Truth(false))),
        Err(OperateNo::NoMemory) => Err(OperateNo::NoMemory),
    }
}

/// The value of an operator's node on two operands.
#[tactic(auto, using(crate::proofs::Marks::big_is_false))]
pub(crate) fn binary_value(
    alloc: Global,
    op: Op2,
    a: Option<&Val>,
    b: Option<&Val>,
) -> Result<Option<Val>, OperateNo>
    ensures ok { IfOk result (λ o. option_map pure_val o ≡ false_where_undefined (is_true_op2 op) (value_of_node (binary op) (option_map pure_val (option_copied a.entry) ∷ option_map pure_val (option_copied b.entry) ∷ []))) }
    ensures big { result ≡ Err Big → is_big (false_where_undefined (is_true_op2 op) (value_of_node (binary op) (option_map pure_val (option_copied a.entry) ∷ option_map pure_val (option_copied b.entry) ∷ []))) ≡ true }
{
    let found = value_of_binary(alloc, op, a, b);
    if !is_truth_op2(op) {
        return found;
    }
    match found {
        Ok(found) => Ok(Some(Val::Truth(truth_of(found)))),
        Err(OperateNo::Big) => Ok(Some(Val::Truth(false))),
        Err(OperateNo::NoMemory) => Err(OperateNo::NoMemory),
    }
}

/// The value of a call of a function word on one operand.
#[tactic(auto, using(crate::proofs::Marks::big_is_false))]
pub(crate) fn word_value1(
    alloc: Global,
    mark: bool,
    fun: Fun,
    a: Option<&Val>,
) -> Result<Option<Val>, OperateNo>
    ensures ok { IfOk result (λ o. option_map pure_val o ≡ false_where_undefined (mark_of_call mark fun) (value_of_node (word fun) (option_map pure_val (option_copied a.entry) ∷ []))) }
    ensures big { result ≡ Err Big → is_big (false_where_undefined (mark_of_call mark fun) (value_of_node (word fun) (option_map pure_val (option_copied a.entry) ∷ []))) ≡ true }
{
    let found = value_of_word1(alloc, fun, a);
    if !call_mark(mark, fun) {
        return found;
    }
    match found {
        Ok(found) => Ok(Some(Val::Truth(truth_of(found)))),
        Err(OperateNo::Big) => Ok(Some(Val::Truth(false))),
        Err(OperateNo::NoMemory) => Err(OperateNo::NoMemory),
    }
}

/// The value of a call of a function word on two operands.
#[tactic(auto, using(crate::proofs::Marks::big_is_false))]
pub(crate) fn word_value2(
    alloc: Global,
    mark: bool,
    fun: Fun,
    a: Option<&Val>,
    b: Option<&Val>,
) -> Result<Option<Val>, OperateNo>
    ensures ok { IfOk result (λ o. option_map pure_val o ≡ false_where_undefined (mark_of_call mark fun) (value_of_node (word fun) (option_map pure_val (option_copied a.entry) ∷ option_map pure_val (option_copied b.entry) ∷ []))) }
    ensures big { result ≡ Err Big → is_big (false_where_undefined (mark_of_call mark fun) (value_of_node (word fun) (option_map pure_val (option_copied a.entry) ∷ option_map pure_val (option_copied b.entry) ∷ []))) ≡ true }
{
    let found = value_of_word2(alloc, fun, a, b);
    if !call_mark(mark, fun) {
        return found;
    }
    match found {
        Ok(found) => Ok(Some(Val::Truth(truth_of(found)))),
        Err(OperateNo::Big) => Ok(Some(Val::Truth(false))),
        Err(OperateNo::NoMemory) => Err(OperateNo::NoMemory),
    }
}

/// The value of a call of a function word.
#[tactic(auto, using(crate::proofs::Marks::big_is_false))]
pub(crate) fn word_value(
    alloc: Global,
    mark: bool,
    fun: Fun,
    operands: Row<Option<Val>>,
) -> Result<Option<Val>, OperateNo>
    ensures ok { IfOk result (λ o. option_map pure_val o ≡ false_where_undefined (mark_of_call mark fun) (value_of_node (word fun) (map (option_map pure_val) operands))) }
    ensures big { result ≡ Err Big → is_big (false_where_undefined (mark_of_call mark fun) (value_of_node (word fun) (map (option_map pure_val) operands))) ≡ true }
{
    let found = value_of_call(alloc, fun, operands.as_slice());
    drop(operands);
    if !call_mark(mark, fun) {
        return found;
    }
    match found {
        Ok(found) => Ok(Some(Val::Truth(truth_of(found)))),
        Err(OperateNo::Big) => Ok(Some(Val::Truth(false))),
        Err(OperateNo::NoMemory) => Err(OperateNo::NoMemory),
    }
}

/// The value of a function word, whatever its number of operands.
#[tactic(auto, using(crate::proofs::Words::many_operands, crate::proofs::Words::missing_operand))]
fn value_of_call(
    alloc: Global,
    fun: Fun,
    operands: &[Option<Val>],
) -> Result<Option<Val>, OperateNo>
    ensures ok { IfOk result (λ o. option_map pure_val o ≡ value_of_node (word fun) (map (option_map pure_val) operands.now)) }
    ensures big { result ≡ Err Big → is_big (value_of_node (word fun) (map (option_map pure_val) operands.now)) ≡ true }
{
    match operands.split_first() {
        None => Ok(Some(Val::Truth(false))),
        Some((a, rest)) => match rest.split_first() {
            None => value_of_word1(alloc, fun, a.as_ref()),
            Some((b, others)) => match others.split_first() {
                None => value_of_word2(alloc, fun, a.as_ref(), b.as_ref()),
                Some((_, _)) => {
                    if all_there(operands) {
                        Ok(Some(Val::Truth(false)))
                    } else {
                        Ok(None)
                    }
                }
            },
        },
    }
}

/// Whether each operand has a value.
#[tactic(auto, using(crate::proofs::Words::there_more))]
fn all_there(operands: &[Option<Val>]) -> bool
    ensures { result ≡ is_some (all_some (map (option_map pure_val) operands.now)) }
{
    for operand in operands {
        match operand {
            Some(_) => {}
            None => return false,
        }
    }
    true
}

/// The value of an index, with the values of the steps by value.
pub(crate) fn index_value(
    alloc: Global,
    mark: bool,
    of: Option<&Val>,
    steps: &[Step],
    at: &[Option<Val>],
) -> Result<Option<Val>, OperateNo>
    ensures ok { IfOk result (λ o. option_map pure_val o ≡ false_where_undefined mark (value_of_node (index (words_of (map pure_step steps.now))) (option_map pure_val (option_copied of.entry) ∷ map (option_map pure_val) at.now))) }
    ensures big { result ≡ Err Big → is_big (false_where_undefined mark (value_of_node (index (words_of (map pure_step steps.now))) (option_map pure_val (option_copied of.entry) ∷ map (option_map pure_val) at.now))) ≡ true }
{
    Ok(settle(mark, value_at_steps(alloc, of, steps, at)?))
}

/// The value of an application.
pub(crate) fn application_value(
    alloc: Global,
    mark: bool,
    of: Option<&Val>,
    arguments: &[Option<Val>],
) -> Result<Option<Val>, OperateNo>
    ensures ok { IfOk result (λ o. option_map pure_val o ≡ false_where_undefined mark (value_of_node application (option_map pure_val (option_copied of.entry) ∷ map (option_map pure_val) arguments.now))) }
    ensures big { result ≡ Err Big → is_big (false_where_undefined mark (value_of_node application (option_map pure_val (option_copied of.entry) ∷ map (option_map pure_val) arguments.now))) ≡ true }
{
    Ok(settle(mark, value_of_application(alloc, of, arguments)?))
}
