ghost use Rattle.std.specs.Prelude.{◌≡◌, ◌∷◌, [], IfOk, Some, true, map, option_map};
ghost use Rattle.std.specs.Option.{option_copied};
ghost use Rattle.ess_semantics.specs.Values.{from_of, itself};
ghost use Rattle.ess_semantics.specs.Names.{look};
ghost use Rattle.ess_semantics.specs.Collections.{rises};
ghost use Rattle.ess_semantics.specs.Trees.{binary, application, is_truth_op2};
ghost use Rattle.ess_semantics.specs.Operators.{value_of_node, false_where_undefined};
ghost use Rattle.ess_semantics.specs.Large.{is_big};
ghost use Rattle.ess_core.specs.ValueViews.{pure_val, pure_pair};
ghost use Rattle.ess_core.specs.TreeViews.{pure_ex};
ghost use Rattle.ess_semantics.specs.declared.words.Op2.TheVariants.{Member};
ghost use Rattle.ess_eval_operators.specs.declared.OperateNo.TheVariants.{Big};
ghost use Rattle.ess_values_lookups.specs.Rising.{has_rising_items};
ghost use Rattle.ess_eval.specs.Environments.{env_at};
ghost use Rattle.ess_eval.specs.Operands.{operand_value, value_of_function, value_of_relation};

use crate::marking::{application_value, binary_value};
use crate::names::{rising_of_name, value_of_name};
use crate::operands::operand;
use crate::risen::Risen;
use ess_core::{Binding, Ex, NoMemory, Op2, Pair, Row, Text, Val};
use ess_eval_operators::{OperateNo, settle, tuple_value};
use ess_values_lookups::{holds_rising, member_rising, value_at_rising};
use std::alloc::Global;

/// The value of an operator's node on two operands: what a name stands for is looked into where it lies, and by halves where
/// its items rise.
pub(crate) fn two_value(
    alloc: Global,
    op: Op2,
    a: &Ex,
    x: &Option<Val>,
    b: &Ex,
    y: &Option<Val>,
    env: &Risen,
    bound: &[Binding],
) -> Result<Option<Val>, OperateNo>
    ensures ok { IfOk result (λ o. option_map pure_val o
        ≡ false_where_undefined (is_truth_op2 op) (value_of_node (binary op)
        (operand_value (pure_ex a.now) (env_at env.now bound.now) (option_map pure_val x.now)
        ∷ operand_value (pure_ex b.now) (env_at env.now bound.now) (option_map pure_val y.now) ∷ []))) }
    ensures big { result ≡ Err Big
        → is_big (false_where_undefined (is_truth_op2 op) (value_of_node (binary op)
        (operand_value (pure_ex a.now) (env_at env.now bound.now) (option_map pure_val x.now)
        ∷ operand_value (pure_ex b.now) (env_at env.now bound.now) (option_map pure_val y.now) ∷ []))) ≡ true }
{
    let left = operand(a, x, env, bound);
    match b {
        Ex::Name(name) => named_value(alloc, op, left, name, env, bound),
        _ => binary_value(alloc, op, left, operand(b, y, env, bound)),
    }
}

/// The same where the second operand is a name.
fn named_value(
    alloc: Global,
    op: Op2,
    left: Option<&Val>,
    name: &Text,
    env: &Risen,
    bound: &[Binding],
) -> Result<Option<Val>, OperateNo>
    ensures ok { IfOk result (λ o. option_map pure_val o
        ≡ false_where_undefined (is_truth_op2 op) (value_of_node (binary op)
        (option_map pure_val (option_copied left.entry) ∷ look (env_at env.now bound.now).vals name.now ∷ []))) }
    ensures big { result ≡ Err Big
        → is_big (false_where_undefined (is_truth_op2 op) (value_of_node (binary op)
        (option_map pure_val (option_copied left.entry) ∷ look (env_at env.now bound.now).vals name.now ∷ []))) ≡ true }
{
    if let Op2::Member = op {
        if let Some(of) = rising_of_name(name, env, bound) {
            return member_value(alloc, left, of);
        }
    }
    binary_value(alloc, op, left, value_of_name(name, env, bound))
}

/// Whether a value is a member of a value whose items rise.
fn member_value(alloc: Global, val: Option<&Val>, of: &Val) -> Result<Option<Val>, OperateNo>
    requires { has_rising_items (pure_val of.now) ≡ true }
    ensures ok { IfOk result (λ o. option_map pure_val o
        ≡ false_where_undefined true (value_of_node (binary Member)
        (option_map pure_val (option_copied val.entry) ∷ Some (pure_val of.now) ∷ []))) }
    ensures big { result ≡ Err Big
        → is_big (false_where_undefined true (value_of_node (binary Member)
        (option_map pure_val (option_copied val.entry) ∷ Some (pure_val of.now) ∷ []))) ≡ true }
{
    if let Some(item) = val {
        if let Some(found) = member_rising(item, of) {
            return Ok(Some(Val::Truth(found)));
        }
    }
    binary_value(alloc, Op2::Member, val, Some(of))
}

/// The value of an application of a name: what it stands for is looked into where it lies, and by halves where its items rise.
pub(crate) fn named_application(
    alloc: Global,
    mark: bool,
    name: &Text,
    arguments: Row<Option<Val>>,
    env: &Risen,
    bound: &[Binding],
) -> Result<Option<Val>, OperateNo>
    ensures ok { IfOk result (λ o. option_map pure_val o
        ≡ false_where_undefined mark (value_of_node application
        (look (env_at env.now bound.now).vals name.now ∷ map (option_map pure_val) arguments))) }
    ensures big { result ≡ Err Big
        → is_big (false_where_undefined mark (value_of_node application
        (look (env_at env.now bound.now).vals name.now ∷ map (option_map pure_val) arguments))) ≡ true }
{
    match rising_of_name(name, env, bound) {
        Some(of) => Ok(settle(mark, applied_rising(alloc, of, arguments)?)),
        None => {
            let of = value_of_name(name, env, bound);
            let found = application_value(alloc, mark, of, arguments.as_slice());
            drop(arguments);
            found
        }
    }
}

/// The value of an application of a value whose items rise.
#[tactic(auto, using(crate::proofs::Applied::applied, ess_values_lookups::proofs::Risings::kinds))]
fn applied_rising(
    alloc: Global,
    of: &Val,
    arguments: Row<Option<Val>>,
) -> Result<Option<Val>, NoMemory>
    requires { has_rising_items (pure_val of.now) ≡ true }
    ensures { IfOk result (λ o. option_map pure_val o
        ≡ value_of_node application (Some (pure_val of.now) ∷ map (option_map pure_val) arguments)) }
{
    match of {
        Val::Function(pairs) => {
            let found = function_value(alloc, pairs.as_slice(), arguments.as_slice());
            drop(arguments);
            found
        }
        Val::Relation(tuples) => relation_value(alloc, tuples.as_slice(), arguments),
        _ => {
            drop(arguments);
            Ok(None)
        }
    }
}

/// The value of a function whose arguments rise, at an argument that may have no value. It has none at several.
fn function_value(
    alloc: Global,
    pairs: &[Pair],
    arguments: &[Option<Val>],
) -> Result<Option<Val>, NoMemory>
    requires { rises from_of (map pure_pair pairs.now) ≡ true }
    ensures { IfOk result (λ o. option_map pure_val o
        ≡ value_of_function (map pure_pair pairs.now) (map (option_map pure_val) arguments.now)) }
{
    match arguments.split_first() {
        Some((Some(at), rest)) => {
            if rest.len() > 0 {
                return Ok(None);
            }
            match value_at_rising(pairs, at) {
                Some(val) => match val.copy(alloc) {
                    Ok(copy) => Ok(Some(copy)),
                    Err(no) => Err(no),
                },
                None => Ok(None),
            }
        }
        _ => Ok(None),
    }
}

/// Whether the tuple of these parts is among tuples that rise. Nothing where a part has no value.
fn relation_value(
    alloc: Global,
    tuples: &[Val],
    parts: Row<Option<Val>>,
) -> Result<Option<Val>, NoMemory>
    requires { rises itself (map pure_val tuples.now) ≡ true }
    ensures { IfOk result (λ o. option_map pure_val o ≡ value_of_relation (map pure_val tuples.now) (map (option_map pure_val) parts)) }
{
    match tuple_value(alloc, parts)? {
        Some(tuple) => {
            let found = holds_rising(tuples, &tuple);
            drop(tuple);
            Ok(Some(Val::Truth(found)))
        }
        None => Ok(None),
    }
}
