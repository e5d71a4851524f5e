ghost use Rattle.std.specs.Prelude.{◌≡◌, IfOk, OnOk, true, option_map};
ghost use Rattle.ess_semantics.specs.Meaning.{meaning};
ghost use Rattle.ess_semantics.specs.Large.{is_large};
ghost use Rattle.ess_core.specs.ValueViews.{pure_val};
ghost use Rattle.ess_core.specs.TreeViews.{pure_ex};
ghost use Rattle.ess_eval_operators.specs.declared.OperateNo.TheVariants.{Big};
ghost use Rattle.ess_eval.specs.Environments.{env_at};

use crate::operands::{field_values_at, pairs_at, values_at};
use crate::risen::Risen;
use ess_core::{Binding, Ex, Row, Val};
use ess_eval_operators::{
    OperateNo, function_value, list_value, mset_value, partition_value, record_value,
    relation_value, set_value, tuple_value,
};
use std::alloc::Global;

/// What a literal means whose parts are expressions. `NoMemory` for any other expression too, which has its value elsewhere: so
/// the many locals of literals aren't laid out for each name and number.
#[cycle(value)]
#[tactic(auto, using(crate::proofs::Excuses::large_in_parts))]
pub(crate) fn literal_at(
    alloc: Global,
    ex: &Ex,
    env: &Risen,
    bound: &mut Row<Binding>,
) -> Result<Option<Val>, OperateNo>
    ensures ok { IfOk result (λ o. option_map pure_val o ≡ meaning (pure_ex ex.now) (env_at env.now bound.old)) }
    ensures kept { OnOk result (bound.new ≡ bound.old) }
    ensures big { result ≡ Err Big → is_large (pure_ex ex.now) (env_at env.now bound.old) ≡ true }
{
    match ex {
        Ex::Tuple(parts) => Ok(tuple_value(
            alloc,
            values_at(alloc, parts.as_slice(), env, bound)?,
        )?),
        Ex::Rec(fields) => {
            let vals = field_values_at(alloc, fields.as_slice(), env, bound)?;
            Ok(record_value(alloc, fields.as_slice(), vals)?)
        }
        Ex::Set(members) => Ok(set_value(
            alloc,
            values_at(alloc, members.as_slice(), env, bound)?,
        )?),
        Ex::MSet(members) => Ok(mset_value(
            alloc,
            values_at(alloc, members.as_slice(), env, bound)?,
        )?),
        Ex::Function(pairs) => {
            let mut vals = Row::new(alloc);
            pairs_at(alloc, pairs.as_slice(), env, bound, &mut vals)?;
            Ok(function_value(alloc, vals)?)
        }
        Ex::Relation(tuples) => Ok(relation_value(
            alloc,
            values_at(alloc, tuples.as_slice(), env, bound)?,
        )?),
        Ex::Partition(parts) => Ok(partition_value(
            alloc,
            values_at(alloc, parts.as_slice(), env, bound)?,
        )?),
        Ex::Matrix(items, None) => Ok(list_value(
            alloc,
            values_at(alloc, items.as_slice(), env, bound)?,
        )?),
        _ => Err(OperateNo::NoMemory),
    }
}
