ghost use Rattle.std.specs.Prelude.{◌≡◌, false, map, option_map, IfOk};
ghost use Rattle.ess_semantics.specs.Names.{keys};
ghost use Rattle.ess_semantics.specs.Trees.{tuple_literal, set_literal, mset_literal, function_literal, relation_literal, partition_literal, matrix_literal, record_literal, node_ex, matrix_ex};
ghost use Rattle.ess_core.specs.TreeViews.{pure_ex, pure_exs, pure_dom, pure_pair_ex, pure_field_ex, exs_of, field_values};
ghost use Rattle.ess_core.specs.TableViews.{pure_env};
ghost use Rattle.ess_values.specs.TypedLiterals.{typed_literal, typed_literals, typed_fields};
ghost use Rattle.ess_values.specs.Literals.{pure_literal, pure_parts, pure_pair_literal, pure_pair_parts, pure_fields};

use super::fields::record;
use super::index::matrix_on;
use super::kinds::{function, list, mset, partition, relation, set, tuple};
use super::numbers::number;
use super::parts::{Field, Literal, PairLiteral, PairParts, Parts};
use crate::naming::item;
use crate::shapes::{Kind, Shape, two_shapes};
use ess_core::{Boxed, Dom, Env, Ex, FieldEx, NoMemory, Op1, Pair, PairEx, Row, Val};
use std::alloc::Global;

/// The type and the value of a literal, where it is one and has a value. `NoMemory` where there is no room for them.
#[cycle(literal)]
pub fn literal(alloc: Global, ex: &Ex, env: &Env) -> Result<Option<Literal>, NoMemory>
    ensures { IfOk result (λ o. option_map pure_literal o ≡ typed_literal (pure_ex ex.now) (pure_env env.now)) }
{
    match ex {
        Ex::Num(_) => Ok(number(alloc, ex)?),
        Ex::Truth(truth) => Ok(Some(Literal {
            shape: Boxed::new(alloc, Shape::Bool)?,
            val: Boxed::new(alloc, Val::Truth(*truth))?,
        })),
        Ex::Name(name) => Ok(item(alloc, name, env)?),
        Ex::One(Op1::Minus, _) => Ok(number(alloc, ex)?),
        Ex::Tuple(items) => Ok(read_tuple(alloc, items.as_slice(), env)?),
        Ex::Rec(fields) => Ok(read_record(alloc, fields.as_slice(), env)?),
        Ex::Set(items) => Ok(read_set(alloc, items.as_slice(), env)?),
        Ex::MSet(items) => Ok(read_mset(alloc, items.as_slice(), env)?),
        Ex::Function(pairs) => Ok(read_function(alloc, pairs.as_slice(), env)?),
        Ex::Relation(items) => Ok(read_relation(alloc, items.as_slice(), env)?),
        Ex::Partition(items) => Ok(read_partition(alloc, items.as_slice(), env)?),
        Ex::Matrix(items, None) => Ok(read_list(alloc, items.as_slice(), env)?),
        Ex::Matrix(items, Some(domain)) => {
            Ok(read_matrix(alloc, items.as_slice(), domain.get(), env)?)
        }
        _ => Ok(None),
    }
}

/// A tuple literal.
#[cycle(literal)]
#[tactic(auto, using(crate::proofs::Reading::tuple_is_read))]
fn read_tuple(alloc: Global, items: &[Ex], env: &Env) -> Result<Option<Literal>, NoMemory>
    ensures { IfOk result (λ o. option_map pure_literal o ≡ typed_literal (node_ex false tuple_literal (pure_exs items.now)) (pure_env env.now)) }
{
    let parts = literals(alloc, items, env)?;
    Ok(tuple(alloc, parts)?)
}

/// A set literal.
#[cycle(literal)]
#[tactic(auto, using(crate::proofs::Reading::set_is_read))]
fn read_set(alloc: Global, items: &[Ex], env: &Env) -> Result<Option<Literal>, NoMemory>
    ensures { IfOk result (λ o. option_map pure_literal o ≡ typed_literal (node_ex false set_literal (pure_exs items.now)) (pure_env env.now)) }
{
    let parts = literals(alloc, items, env)?;
    Ok(set(alloc, parts)?)
}

/// A multiset literal.
#[cycle(literal)]
#[tactic(auto, using(crate::proofs::Reading::mset_is_read))]
fn read_mset(alloc: Global, items: &[Ex], env: &Env) -> Result<Option<Literal>, NoMemory>
    ensures { IfOk result (λ o. option_map pure_literal o ≡ typed_literal (node_ex false mset_literal (pure_exs items.now)) (pure_env env.now)) }
{
    let parts = literals(alloc, items, env)?;
    Ok(mset(alloc, parts)?)
}

/// A relation literal.
#[cycle(literal)]
#[tactic(auto, using(crate::proofs::Reading::relation_is_read))]
fn read_relation(alloc: Global, items: &[Ex], env: &Env) -> Result<Option<Literal>, NoMemory>
    ensures { IfOk result (λ o. option_map pure_literal o ≡ typed_literal (node_ex false relation_literal (pure_exs items.now)) (pure_env env.now)) }
{
    let parts = literals(alloc, items, env)?;
    Ok(relation(alloc, parts)?)
}

/// A partition literal.
#[cycle(literal)]
#[tactic(auto, using(crate::proofs::Reading::partition_is_read, crate::proofs::SetLemmas::sets_there))]
fn read_partition(alloc: Global, items: &[Ex], env: &Env) -> Result<Option<Literal>, NoMemory>
    ensures { IfOk result (λ o. option_map pure_literal o ≡ typed_literal (node_ex false partition_literal (pure_exs items.now)) (pure_env env.now)) }
{
    let parts = literals(alloc, items, env)?;
    Ok(partition(alloc, parts)?)
}

/// A list literal.
#[cycle(literal)]
#[tactic(auto, using(crate::proofs::Reading::list_is_read))]
fn read_list(alloc: Global, items: &[Ex], env: &Env) -> Result<Option<Literal>, NoMemory>
    ensures { IfOk result (λ o. option_map pure_literal o ≡ typed_literal (node_ex false matrix_literal (pure_exs items.now)) (pure_env env.now)) }
{
    let parts = literals(alloc, items, env)?;
    Ok(list(alloc, parts)?)
}

/// A function literal.
#[cycle(literal)]
#[tactic(auto, using(crate::proofs::Reading::function_is_read))]
fn read_function(alloc: Global, pairs: &[PairEx], env: &Env) -> Result<Option<Literal>, NoMemory>
    ensures { IfOk result (λ o. option_map pure_literal o ≡ typed_literal (node_ex false function_literal (exs_of (map pure_pair_ex pairs.now))) (pure_env env.now)) }
{
    let parts = pair_literals(alloc, pairs, env)?;
    Ok(function(alloc, parts)?)
}

/// A record literal.
#[cycle(literal)]
#[tactic(auto, using(crate::proofs::RecordReading::record_is_read))]
fn read_record(alloc: Global, fields: &[FieldEx], env: &Env) -> Result<Option<Literal>, NoMemory>
    ensures { IfOk result (λ o. option_map pure_literal o ≡ typed_literal (node_ex false (record_literal (keys (map pure_field_ex fields.now))) (exs_of (field_values (map pure_field_ex fields.now)))) (pure_env env.now)) }
{
    let parts = field_literals(alloc, fields, env)?;
    Ok(record(alloc, parts)?)
}

/// A matrix literal with its index domain.
#[cycle(literal)]
#[tactic(auto, using(crate::proofs::Reading::matrix_is_read))]
fn read_matrix(
    alloc: Global,
    items: &[Ex],
    domain: &Dom,
    env: &Env,
) -> Result<Option<Literal>, NoMemory>
    ensures { IfOk result (λ o. option_map pure_literal o ≡ typed_literal (matrix_ex (pure_exs items.now) (pure_dom domain.now)) (pure_env env.now)) }
{
    let parts = literals(alloc, items, env)?;
    Ok(matrix_on(alloc, parts, domain, env)?)
}

/// The types and the values of several literals, where each has both.
#[cycle(literal)]
#[tactic(auto, using(crate::proofs::Reading::literals_step, crate::proofs::Reading::literals_none, crate::proofs::Reading::literals_end))]
fn literals(alloc: Global, exs: &[Ex], env: &Env) -> Result<Option<Parts>, NoMemory>
    ensures { IfOk result (λ o. option_map pure_parts o ≡ typed_literals (pure_exs exs.now) (pure_env env.now)) }
{
    let mut shapes = Row::new(alloc);
    let mut vals = Row::new(alloc);
    for ex in exs {
        match literal(alloc, ex, env)? {
            Some(found) => {
                shapes.push(found.shape.into_inner())?;
                vals.push(found.val.into_inner())?;
            }
            None => return Ok(None),
        }
    }
    Ok(Some(Parts { shapes, vals }))
}

/// The types and the pairs of a function literal, where each has both.
#[cycle(literal)]
#[tactic(auto, using(crate::proofs::Reading::pairs_step, crate::proofs::Reading::pairs_none, crate::proofs::Reading::pairs_end))]
fn pair_literals(alloc: Global, exs: &[PairEx], env: &Env) -> Result<Option<PairParts>, NoMemory>
    ensures { IfOk result (λ o. option_map pure_pair_parts o ≡ typed_literals (exs_of (map pure_pair_ex exs.now)) (pure_env env.now)) }
{
    let mut shapes = Row::new(alloc);
    let mut pairs = Row::new(alloc);
    for ex in exs {
        match pair_literal(alloc, ex, env)? {
            Some(found) => {
                shapes.push(found.shape.into_inner())?;
                pairs.push(found.pair.into_inner())?;
            }
            None => return Ok(None),
        }
    }
    Ok(Some(PairParts { shapes, pairs }))
}

/// The type and the value of a pair, where it has both.
#[cycle(literal)]
#[tactic(auto, using(crate::proofs::Reading::pair_is_read, ess_core::proofs::PartEquations::pure_pair_ex_is, crate::proofs::ShapeEquations::shape_node))]
fn pair_literal(alloc: Global, ex: &PairEx, env: &Env) -> Result<Option<PairLiteral>, NoMemory>
    ensures { IfOk result (λ o. option_map pure_pair_literal o ≡ typed_literal (pure_pair_ex ex.now) (pure_env env.now)) }
{
    let Some(from) = literal(alloc, &ex.from, env)? else {
        return Ok(None);
    };
    let Some(to) = literal(alloc, &ex.to, env)? else {
        return Ok(None);
    };
    let shapes = two_shapes(alloc, from.shape, to.shape)?;
    let shape = Boxed::new(alloc, Shape::Node(Kind::Tuple, shapes))?;
    let pair = Pair {
        from: from.val.into_inner(),
        to: to.val.into_inner(),
    };
    Ok(Some(PairLiteral {
        shape,
        pair: Boxed::new(alloc, pair)?,
    }))
}

/// The fields of a record literal, where each has a type and a value.
#[cycle(literal)]
#[tactic(auto, using(crate::proofs::RecordReading::fields_step, crate::proofs::RecordReading::fields_none, crate::proofs::RecordReading::fields_end))]
fn field_literals(alloc: Global, exs: &[FieldEx], env: &Env) -> Result<Option<Row<Field>>, NoMemory>
    ensures { IfOk result (λ o. option_map pure_fields o ≡ typed_fields (map pure_field_ex exs.now) (pure_env env.now)) }
{
    let mut fields = Row::new(alloc);
    for ex in exs {
        match literal(alloc, &ex.ex, env)? {
            Some(found) => fields.push(Field {
                name: ex.name.copy(alloc)?,
                shape: found.shape,
                val: found.val,
            })?,
            None => return Ok(None),
        }
    }
    Ok(Some(fields))
}
