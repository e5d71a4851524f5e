ghost use Rattle.std.specs.Prelude.{◌≡◌, IfOk, OnOk, true, map, option_map};
ghost use Rattle.ess_semantics.specs.Trees.{index, application, node_ex, matrix_ex, more_exs, no_exs, word, ex2, is_truth_op2};
ghost use Rattle.ess_semantics.specs.Meaning.{meaning, as_int};
ghost use Rattle.ess_semantics.specs.Large.{is_large};
ghost use Rattle.ess_core.specs.ValueViews.{pure_val};
ghost use Rattle.ess_core.specs.TreeViews.{pure_ex, pure_exs, pure_dom, pure_step, exs_of, words_of, within, call_mark};
ghost use Rattle.ess_eval_operators.specs.declared.OperateNo.TheVariants.{Big};
ghost use Rattle.ess_eval.specs.Environments.{env_at};

use crate::closing::domain_members;
use crate::generating::{comprehension, word_over};
use crate::halving::{named_application, two_value};
use crate::literals::literal_at;
use crate::marking::{
    application_value, index_value, unary_value, word_value, word_value1, word_value2,
};
use crate::names::value_of_name;
use crate::operands::{operand, steps_at, unnamed_at, values_at};
use crate::reading::{matrix_of, number_of, view_value};
use crate::risen::Risen;
use ess_core::{Binding, Dom, Ex, Fun, Op2, Row, Step, Val};
use ess_eval_operators::OperateNo;
use std::alloc::Global;

/// What an expression means below generators that have bound names.
#[cycle(value)]
#[tactic(auto, using(crate::proofs::Excuses::large_in_parts, crate::proofs::Weights::lighter_inside))]
pub(crate) fn value_at(
    alloc: Global,
    ex: &Ex,
    env: &Risen,
    bound: &mut Row<Binding>,
) -> Result<Option<Val>, OperateNo>
    ensures ok { IfOk result (λ o. option_map pure_val o ≡ meaning (pure_ex ex.now) (env_at env.now bound.old)) }
    ensures kept { OnOk result (bound.new ≡ bound.old) }
    ensures big { result ≡ Err Big → is_large (pure_ex ex.now) (env_at env.now bound.old) ≡ true }
{
    match ex {
        Ex::Num(number) => Ok(Some(Val::Num(*number))),
        Ex::Truth(truth) => Ok(Some(Val::Truth(*truth))),
        Ex::Name(name) => match value_of_name(name, &*env, bound.as_slice()) {
            Some(val) => match val.copy(alloc) {
                Ok(copy) => Ok(Some(copy)),
                Err(_) => Err(OperateNo::NoMemory),
            },
            None => Ok(None),
        },
        Ex::One(op, a) => unary_value(alloc, *op, value_at(alloc, a.get(), env, bound)?),
        Ex::Two(op, a, b) => two_at(alloc, *op, a.get(), b.get(), env, bound),
        Ex::Call(mark, fun, args) => call_at(alloc, *mark, *fun, args.as_slice(), env, bound),
        Ex::At(mark, of, steps) => indexed_at(alloc, *mark, of.get(), steps.as_slice(), env, bound),
        Ex::Apply(mark, of, args) => applied_at(
            alloc,
            *mark,
            of.get(),
            args.as_slice(),
            env,
            bound,
        ),
        Ex::Matrix(items, Some(axis)) => matrix_at(alloc, items.as_slice(), axis.get(), env, bound),
        Ex::Comp(item, gens) => comprehension(alloc, item.get(), gens.as_slice(), env, bound),
        Ex::Cell(mark, _, _) => {
            if *mark {
                Ok(Some(Val::Truth(false)))
            } else {
                Ok(None)
            }
        }
        Ex::Seen(view) => view_value(view.get(), env, bound.as_slice()),
        _ => literal_at(alloc, ex, env, bound),
    }
}

/// An operator between two operands.
#[cycle(value)]
#[tactic(auto, using(crate::proofs::Excuses::large_in_left, crate::proofs::Excuses::large_in_right, crate::proofs::Excuses::large_two))]
fn two_at(
    alloc: Global,
    op: Op2,
    a: &Ex,
    b: &Ex,
    env: &Risen,
    bound: &mut Row<Binding>,
) -> Result<Option<Val>, OperateNo>
    ensures ok { IfOk result (λ o. option_map pure_val o ≡ meaning (ex2 (is_truth_op2 op) op (pure_ex a.now) (pure_ex b.now)) (env_at env.now bound.old)) }
    ensures kept { OnOk result (bound.new ≡ bound.old) }
    ensures big { result ≡ Err Big → is_large (ex2 (is_truth_op2 op) op (pure_ex a.now) (pure_ex b.now)) (env_at env.now bound.old) ≡ true }
{
    let x = unnamed_at(alloc, a, env, bound)?;
    let y = match unnamed_at(alloc, b, env, bound) {
        Ok(y) => y,
        Err(no) => {
            drop(x);
            return Err(no);
        }
    };
    let found = two_value(alloc, op, a, &x, b, &y, env, bound.as_slice());
    drop(x);
    drop(y);
    found
}

/// A call of a function word.
#[cycle(value)]
#[tactic(auto, using(crate::proofs::Excuses::large_operand, crate::proofs::Excuses::large_word_all))]
fn call_at(
    alloc: Global,
    mark: bool,
    fun: Fun,
    args: &[Ex],
    env: &Risen,
    bound: &mut Row<Binding>,
) -> Result<Option<Val>, OperateNo>
    ensures ok { IfOk result (λ o. option_map pure_val o ≡ meaning (node_ex (call_mark mark fun) (word fun) (pure_exs args.now)) (env_at env.now bound.old)) }
    ensures kept { OnOk result (bound.new ≡ bound.old) }
    ensures big { result ≡ Err Big → is_large (node_ex (call_mark mark fun) (word fun) (pure_exs args.now)) (env_at env.now bound.old) ≡ true }
{
    if let Some((a, rest)) = args.split_first() {
        match rest.split_first() {
            None => return call_one(alloc, mark, fun, a, env, bound),
            Some((b, others)) => {
                if others.is_empty() {
                    return call_two(alloc, mark, fun, a, b, env, bound);
                }
            }
        }
    }
    let args = values_at(alloc, args, env, bound)?;
    word_value(alloc, mark, fun, args)
}

/// A call of a function word on one operand.
#[cycle(value)]
#[tactic(auto, using(crate::proofs::Excuses::large_word_in, crate::proofs::Excuses::large_word_one))]
fn call_one(
    alloc: Global,
    mark: bool,
    fun: Fun,
    a: &Ex,
    env: &Risen,
    bound: &mut Row<Binding>,
) -> Result<Option<Val>, OperateNo>
    ensures ok { IfOk result (λ o. option_map pure_val o ≡ meaning (node_ex (call_mark mark fun) (word fun) (more_exs (pure_ex a.now) no_exs)) (env_at env.now bound.old)) }
    ensures kept { OnOk result (bound.new ≡ bound.old) }
    ensures big { result ≡ Err Big → is_large (node_ex (call_mark mark fun) (word fun) (more_exs (pure_ex a.now) no_exs)) (env_at env.now bound.old) ≡ true }
{
    if !mark {
        if let Ex::Comp(item, gens) = a {
            return word_over(alloc, fun, item.get(), gens.as_slice(), env, bound);
        }
    }
    let x = unnamed_at(alloc, a, env, bound)?;
    let found = word_value1(alloc, mark, fun, operand(a, &x, &*env, bound.as_slice()));
    drop(x);
    found
}

/// A call of a function word on two operands.
#[cycle(value)]
#[tactic(auto, using(crate::proofs::Excuses::large_word_left, crate::proofs::Excuses::large_word_right, crate::proofs::Excuses::large_word_two))]
fn call_two(
    alloc: Global,
    mark: bool,
    fun: Fun,
    a: &Ex,
    b: &Ex,
    env: &Risen,
    bound: &mut Row<Binding>,
) -> Result<Option<Val>, OperateNo>
    ensures ok { IfOk result (λ o. option_map pure_val o ≡ meaning (node_ex (call_mark mark fun) (word fun) (more_exs (pure_ex a.now) (more_exs (pure_ex b.now) no_exs))) (env_at env.now bound.old)) }
    ensures kept { OnOk result (bound.new ≡ bound.old) }
    ensures big { result ≡ Err Big → is_large (node_ex (call_mark mark fun) (word fun) (more_exs (pure_ex a.now) (more_exs (pure_ex b.now) no_exs))) (env_at env.now bound.old) ≡ true }
{
    let x = unnamed_at(alloc, a, env, bound)?;
    let y = match unnamed_at(alloc, b, env, bound) {
        Ok(y) => y,
        Err(no) => {
            drop(x);
            return Err(no);
        }
    };
    let found = word_value2(
        alloc,
        mark,
        fun,
        operand(a, &x, &*env, bound.as_slice()),
        operand(b, &y, &*env, bound.as_slice()),
    );
    drop(x);
    drop(y);
    found
}

/// An index. What a name holds is looked into where it lies.
#[cycle(value)]
#[tactic(auto, using(crate::proofs::Excuses::large_in_head, crate::proofs::Excuses::large_in_tail, crate::proofs::Excuses::large_head))]
fn indexed_at(
    alloc: Global,
    mark: bool,
    of: &Ex,
    steps: &[Step],
    env: &Risen,
    bound: &mut Row<Binding>,
) -> Result<Option<Val>, OperateNo>
    ensures ok { IfOk result (λ o. option_map pure_val o ≡ meaning (node_ex mark (index (words_of (map pure_step steps.now))) (more_exs (pure_ex of.now) (exs_of (within (map pure_step steps.now))))) (env_at env.now bound.old)) }
    ensures kept { OnOk result (bound.new ≡ bound.old) }
    ensures big { result ≡ Err Big → is_large (node_ex mark (index (words_of (map pure_step steps.now))) (more_exs (pure_ex of.now) (exs_of (within (map pure_step steps.now))))) (env_at env.now bound.old) ≡ true }
{
    let mut at = Row::new(alloc);
    steps_at(alloc, steps, env, bound, &mut at)?;
    if let Ex::Name(name) = of {
        return index_value(
            alloc,
            mark,
            value_of_name(name, &*env, bound.as_slice()),
            steps,
            at.as_slice(),
        );
    }
    let of = value_at(alloc, of, env, bound)?;
    let found = index_value(alloc, mark, of.as_ref(), steps, at.as_slice());
    drop(of);
    found
}

/// An application. What a name holds is looked into where it lies.
#[cycle(value)]
#[tactic(auto, using(crate::proofs::Excuses::large_in_head, crate::proofs::Excuses::large_in_tail, crate::proofs::Excuses::large_head))]
fn applied_at(
    alloc: Global,
    mark: bool,
    of: &Ex,
    args: &[Ex],
    env: &Risen,
    bound: &mut Row<Binding>,
) -> Result<Option<Val>, OperateNo>
    ensures ok { IfOk result (λ o. option_map pure_val o ≡ meaning (node_ex mark application (more_exs (pure_ex of.now) (pure_exs args.now))) (env_at env.now bound.old)) }
    ensures kept { OnOk result (bound.new ≡ bound.old) }
    ensures big { result ≡ Err Big → is_large (node_ex mark application (more_exs (pure_ex of.now) (pure_exs args.now))) (env_at env.now bound.old) ≡ true }
{
    let args = values_at(alloc, args, env, bound)?;
    if let Ex::Name(name) = of {
        return named_application(alloc, mark, name, args, env, bound.as_slice());
    }
    let of = value_at(alloc, of, env, bound)?;
    let found = application_value(alloc, mark, of.as_ref(), args.as_slice());
    drop(of);
    found
}

/// A matrix literal with its index domain.
#[cycle(value)]
#[tactic(auto, using(crate::proofs::Excuses::large_in_items, crate::proofs::Excuses::large_in_axis))]
fn matrix_at(
    alloc: Global,
    items: &[Ex],
    axis: &Dom,
    env: &Risen,
    bound: &mut Row<Binding>,
) -> Result<Option<Val>, OperateNo>
    ensures ok { IfOk result (λ o. option_map pure_val o ≡ meaning (matrix_ex (pure_exs items.now) (pure_dom axis.now)) (env_at env.now bound.old)) }
    ensures kept { OnOk result (bound.new ≡ bound.old) }
    ensures big { result ≡ Err Big → is_large (matrix_ex (pure_exs items.now) (pure_dom axis.now)) (env_at env.now bound.old) ≡ true }
{
    let vals = values_at(alloc, items, env, bound)?;
    let index = domain_members(alloc, axis, env, bound)?;
    Ok(matrix_of(alloc, index, vals)?)
}

/// The whole number that a bound or an attribute reads.
#[cycle(value)]
pub(crate) fn number_at(
    alloc: Global,
    ex: &Ex,
    env: &Risen,
    bound: &mut Row<Binding>,
) -> Result<Option<i64>, OperateNo>
    ensures ok { IfOk result (λ n. n ≡ as_int (meaning (pure_ex ex.now) (env_at env.now bound.old))) }
    ensures kept { OnOk result (bound.new ≡ bound.old) }
    ensures big { result ≡ Err Big → is_large (pure_ex ex.now) (env_at env.now bound.old) ≡ true }
{
    Ok(number_of(value_at(alloc, ex, env, bound)?))
}
