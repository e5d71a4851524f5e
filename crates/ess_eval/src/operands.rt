ghost use Rattle.std.specs.Prelude.{◌≡◌, ◌++◌, IfOk, OnOk, true, map, option_map};
ghost use Rattle.std.specs.Option.{option_copied};
ghost use Rattle.ess_semantics.specs.Meaning.{meaning, meanings};
ghost use Rattle.ess_semantics.specs.Large.{is_large, any_large};
ghost use Rattle.ess_core.specs.ValueViews.{pure_val, pure_pair};
ghost use Rattle.ess_core.specs.TreeViews.{pure_ex, pure_exs, pure_step, pure_field_ex, pure_pair_ex, exs_of, field_values, within};
ghost use Rattle.ess_eval_operators.specs.declared.OperateNo.TheVariants.{Big};
ghost use Rattle.ess_eval.specs.Environments.{env_at};
ghost use Rattle.ess_eval.specs.Operands.{operand_value};

use crate::evaluating::value_at;
use crate::names::value_of_name;
use crate::risen::Risen;
use ess_core::{Binding, Ex, FieldEx, Pair, PairEx, Row, Step, Val};
use ess_eval_operators::{OperateNo, pair_value};
use std::alloc::Global;

/// The value of an operand, but nothing for a name: that is looked into where it lies.
#[cycle(value)]
pub(crate) fn unnamed_at(
    alloc: Global,
    ex: &Ex,
    env: &Risen,
    bound: &mut Row<Binding>,
) -> Result<Option<Val>, OperateNo>
    ensures ok { IfOk result (λ o. operand_value (pure_ex ex.now) (env_at env.now bound.old) (option_map pure_val o) ≡ meaning (pure_ex ex.now) (env_at env.now bound.old)) }
    ensures kept { OnOk result (bound.new ≡ bound.old) }
    ensures big { result ≡ Err Big → is_large (pure_ex ex.now) (env_at env.now bound.old) ≡ true }
{
    match ex {
        Ex::Name(_) => Ok(None),
        _ => value_at(alloc, ex, env, bound),
    }
}

/// The value of an operand, where the value that was found is that of an operand that is no name.
pub(crate) fn operand<'a>(
    ex: &Ex,
    found: &'a Option<Val>,
    env: &'a Risen,
    bound: &'a [Binding],
) -> Option<&'a Val>
    ensures { option_map pure_val (option_copied result) ≡ operand_value (pure_ex ex.now) (env_at env.now bound.now) (option_map pure_val found.now) }
{
    match ex {
        Ex::Name(name) => value_of_name(name, env, bound),
        _ => found.as_ref(),
    }
}

/// The values of operands, each there or not.
#[cycle(value)]
pub(crate) fn values_at(
    alloc: Global,
    exs: &[Ex],
    env: &Risen,
    bound: &mut Row<Binding>,
) -> Result<Row<Option<Val>>, OperateNo>
    ensures ok { IfOk result (λ r. map (option_map pure_val) r ≡ meanings (pure_exs exs.now) (env_at env.now bound.old)) }
    ensures kept { OnOk result (bound.new ≡ bound.old) }
    ensures big { result ≡ Err Big → any_large (pure_exs exs.now) (env_at env.now bound.old) ≡ true }
{
    let mut vals = Row::new(alloc);
    add_values(alloc, exs, env, bound, &mut vals)?;
    Ok(vals)
}

/// Puts the values of operands behind others.
#[cycle(value)]
#[tactic(auto, using(crate::proofs::Excuses::large_first, crate::proofs::Excuses::large_later, crate::proofs::Gathering::pushed))]
fn add_values(
    alloc: Global,
    exs: &[Ex],
    env: &Risen,
    bound: &mut Row<Binding>,
    vals: &mut Row<Option<Val>>,
) -> Result<(), OperateNo>
    ensures ok { OnOk result (map (option_map pure_val) vals.new ≡ map (option_map pure_val) vals.old ++ meanings (pure_exs exs.now) (env_at env.now bound.old)) }
    ensures kept { OnOk result (bound.new ≡ bound.old) }
    ensures big { result ≡ Err Big → any_large (pure_exs exs.now) (env_at env.now bound.old) ≡ true }
{
    match exs.split_first() {
        None => Ok(()),
        Some((ex, rest)) => {
            vals.push(value_at(alloc, ex, env, bound)?)?;
            add_values(alloc, rest, env, bound, vals)
        }
    }
}

/// The values of a record's fields, in written order.
#[cycle(value)]
pub(crate) fn field_values_at(
    alloc: Global,
    fields: &[FieldEx],
    env: &Risen,
    bound: &mut Row<Binding>,
) -> Result<Row<Option<Val>>, OperateNo>
    ensures ok { IfOk result (λ r. map (option_map pure_val) r ≡ meanings (exs_of (field_values (map pure_field_ex fields.now))) (env_at env.now bound.old)) }
    ensures kept { OnOk result (bound.new ≡ bound.old) }
    ensures big { result ≡ Err Big → any_large (exs_of (field_values (map pure_field_ex fields.now))) (env_at env.now bound.old) ≡ true }
{
    let mut vals = Row::new(alloc);
    add_field_values(alloc, fields, env, bound, &mut vals)?;
    Ok(vals)
}

/// Puts the values of a record's fields behind others.
#[cycle(value)]
#[tactic(auto, using(crate::proofs::Excuses::large_first, crate::proofs::Excuses::large_later, crate::proofs::Gathering::pushed))]
fn add_field_values(
    alloc: Global,
    fields: &[FieldEx],
    env: &Risen,
    bound: &mut Row<Binding>,
    vals: &mut Row<Option<Val>>,
) -> Result<(), OperateNo>
    ensures ok { OnOk result (map (option_map pure_val) vals.new ≡ map (option_map pure_val) vals.old ++ meanings (exs_of (field_values (map pure_field_ex fields.now))) (env_at env.now bound.old)) }
    ensures kept { OnOk result (bound.new ≡ bound.old) }
    ensures big { result ≡ Err Big → any_large (exs_of (field_values (map pure_field_ex fields.now))) (env_at env.now bound.old) ≡ true }
{
    match fields.split_first() {
        None => Ok(()),
        Some((field, rest)) => {
            vals.push(value_at(alloc, &field.ex, env, bound)?)?;
            add_field_values(alloc, rest, env, bound, vals)
        }
    }
}

/// Puts the pairs of a function literal behind others, each there or not.
#[cycle(value)]
#[tactic(auto, using(crate::proofs::Excuses::large_first, crate::proofs::Excuses::large_later, crate::proofs::Gathering::pushed))]
pub(crate) fn pairs_at(
    alloc: Global,
    pairs: &[PairEx],
    env: &Risen,
    bound: &mut Row<Binding>,
    vals: &mut Row<Option<Pair>>,
) -> Result<(), OperateNo>
    ensures ok { OnOk result (map (option_map pure_pair) vals.new ≡ map (option_map pure_pair) vals.old ++ meanings (exs_of (map pure_pair_ex pairs.now)) (env_at env.now bound.old)) }
    ensures kept { OnOk result (bound.new ≡ bound.old) }
    ensures big { result ≡ Err Big → any_large (exs_of (map pure_pair_ex pairs.now)) (env_at env.now bound.old) ≡ true }
{
    match pairs.split_first() {
        None => Ok(()),
        Some((pair, rest)) => {
            vals.push(pair_at(alloc, pair, env, bound)?)?;
            pairs_at(alloc, rest, env, bound, vals)
        }
    }
}

/// A pair of a function literal, where both its parts have a value.
#[cycle(value)]
#[tactic(auto, using(crate::proofs::Excuses::large_in_from, crate::proofs::Excuses::large_in_to, crate::proofs::Weights::lighter_from, crate::proofs::Weights::lighter_to))]
fn pair_at(
    alloc: Global,
    pair: &PairEx,
    env: &Risen,
    bound: &mut Row<Binding>,
) -> Result<Option<Pair>, OperateNo>
    ensures ok { IfOk result (λ o. option_map pure_pair o ≡ meaning (pure_pair_ex pair.now) (env_at env.now bound.old)) }
    ensures kept { OnOk result (bound.new ≡ bound.old) }
    ensures big { result ≡ Err Big → is_large (pure_pair_ex pair.now) (env_at env.now bound.old) ≡ true }
{
    let from = value_at(alloc, &pair.from, env, bound)?;
    match value_at(alloc, &pair.to, env, bound) {
        Ok(to) => Ok(pair_value(from, to)),
        Err(no) => {
            drop(from);
            Err(no)
        }
    }
}

/// Puts the values of the steps by value behind others.
#[cycle(value)]
#[tactic(auto, using(crate::proofs::Excuses::large_first, crate::proofs::Excuses::large_later, crate::proofs::Gathering::pushed))]
pub(crate) fn steps_at(
    alloc: Global,
    steps: &[Step],
    env: &Risen,
    bound: &mut Row<Binding>,
    vals: &mut Row<Option<Val>>,
) -> Result<(), OperateNo>
    ensures ok { OnOk result (map (option_map pure_val) vals.new ≡ map (option_map pure_val) vals.old ++ meanings (exs_of (within (map pure_step steps.now))) (env_at env.now bound.old)) }
    ensures kept { OnOk result (bound.new ≡ bound.old) }
    ensures big { result ≡ Err Big → any_large (exs_of (within (map pure_step steps.now))) (env_at env.now bound.old) ≡ true }
{
    match steps.split_first() {
        None => Ok(()),
        Some((Step::Value(ex), rest)) => {
            vals.push(value_at(alloc, ex, env, bound)?)?;
            steps_at(alloc, rest, env, bound, vals)
        }
        Some((Step::Component(_), rest)) => steps_at(alloc, rest, env, bound, vals),
        Some((Step::Field(_), rest)) => steps_at(alloc, rest, env, bound, vals),
    }
}
