ghost use Rattle.std.specs.Prelude.{◌≡◌, true, map, option_map, IfOk};
ghost use Rattle.std.specs.List.{list_all};
ghost use Rattle.std.specs.Option.{ForSome};
ghost use Rattle.ess_semantics.specs.Lists.{and_then};
ghost use Rattle.ess_semantics.specs.Collections.{function_of as the_function, partition_of as the_partition};
ghost use Rattle.ess_semantics.specs.Values.{a_tuple, a_set};
ghost use Rattle.ess_semantics.specs.Types.{compound};
ghost use Rattle.ess_semantics.specs.Operators.{numbers_from};
ghost use Rattle.ess_semantics.specs.OperatorTypes.{function_ty, relation_ty, partition_ty, type_of_list};
ghost use Rattle.ess_semantics.specs.Trees.{tuple_literal, set_literal, mset_literal, function_literal, relation_literal, partition_literal, matrix_literal};
ghost use Rattle.ess_core.specs.ValueViews.{pure_val, pure_pair};
ghost use Rattle.ess_semantics.specs.Membership.{is_set};
ghost use Rattle.ess_values.specs.Shapes.{pure_shape, pure_shapes};
ghost use Rattle.ess_values.specs.TypedLiterals.{typed_node, SetsWhereTyped};
ghost use Rattle.ess_values.specs.Literals.{pure_literal, pure_parts, pure_pair_parts};

use super::parts::{Literal, PairParts, Parts};
use crate::collections::{mset_of, set_of};
use crate::functions::{FunctionNo, function_of};
use crate::joining::join_all;
use crate::partitions::{PartitionNo, partition_of};
use crate::shapes::{Kind, Shape, one_shape, two_shapes};
use crate::sorting::sorted_once;
use ess_core::{Boxed, NoMemory, Pair, Row, Val};
use std::alloc::Global;

/// A tuple literal.
pub fn tuple(alloc: Global, parts: Option<Parts>) -> Result<Option<Literal>, NoMemory>
    ensures { IfOk result (λ o. option_map pure_literal o ≡ and_then (option_map pure_parts parts) (typed_node tuple_literal)) }
{
    match parts {
        Some(parts) => Ok(Some(Literal {
            shape: Boxed::new(alloc, Shape::Node(Kind::Tuple, parts.shapes))?,
            val: Boxed::new(alloc, Val::Tuple(parts.vals))?,
        })),
        None => Ok(None),
    }
}

/// A set literal, where its members agree.
pub fn set(alloc: Global, parts: Option<Parts>) -> Result<Option<Literal>, NoMemory>
    ensures { IfOk result (λ o. option_map pure_literal o ≡ and_then (option_map pure_parts parts) (typed_node set_literal)) }
{
    let Some(parts) = parts else {
        return Ok(None);
    };
    match join_all(alloc, parts.shapes.as_slice())? {
        Some(member) => {
            let members = one_shape(alloc, member)?;
            Ok(Some(Literal {
                shape: Boxed::new(alloc, Shape::Node(Kind::Set, members))?,
                val: Boxed::new(alloc, set_of(alloc, parts.vals)?)?,
            }))
        }
        None => Ok(None),
    }
}

/// A multiset literal, where its members agree.
pub fn mset(alloc: Global, parts: Option<Parts>) -> Result<Option<Literal>, NoMemory>
    ensures { IfOk result (λ o. option_map pure_literal o ≡ and_then (option_map pure_parts parts) (typed_node mset_literal)) }
{
    let Some(parts) = parts else {
        return Ok(None);
    };
    match join_all(alloc, parts.shapes.as_slice())? {
        Some(member) => {
            let members = one_shape(alloc, member)?;
            Ok(Some(Literal {
                shape: Boxed::new(alloc, Shape::Node(Kind::MSet, members))?,
                val: Boxed::new(alloc, mset_of(alloc, parts.vals)?)?,
            }))
        }
        None => Ok(None),
    }
}

/// A function literal, where its pairs agree and no two of them have one argument and differ.
pub fn function(alloc: Global, parts: Option<PairParts>) -> Result<Option<Literal>, NoMemory>
    ensures { IfOk result (λ o. option_map pure_literal o ≡ and_then (option_map pure_pair_parts parts) (typed_node function_literal)) }
{
    let Some(parts) = parts else {
        return Ok(None);
    };
    let Some(pair) = join_all(alloc, parts.shapes.as_slice())? else {
        return Ok(None);
    };
    let Some(shape) = function_shape(alloc, pair)? else {
        return Ok(None);
    };
    match function_val(alloc, parts.pairs)? {
        Some(val) => Ok(Some(Literal { shape, val })),
        None => Ok(None),
    }
}

/// The type of a function with pairs of this type.
fn function_shape(alloc: Global, pair: Boxed<Shape>) -> Result<Option<Boxed<Shape>>, NoMemory>
    ensures { IfOk result (λ o. option_map pure_shape o ≡ function_ty (pure_shape pair)) }
{
    match pair.into_inner() {
        Shape::Any => {
            let parts = Row::from_array(alloc, [Shape::Any, Shape::Any])?;
            Ok(Some(Boxed::new(alloc, Shape::Node(Kind::Function, parts))?))
        }
        Shape::Node(Kind::Tuple, parts) => Ok(function_from(alloc, parts)?),
        other => {
            drop(other);
            Ok(None)
        }
    }
}

/// The type of a function, from the types of an argument and of a value there.
#[tactic(auto, using(crate::proofs::KindLemmas::two_parts, crate::proofs::KindLemmas::not_two_parts))]
fn function_from(alloc: Global, parts: Row<Shape>) -> Result<Option<Boxed<Shape>>, NoMemory>
    ensures { IfOk result (λ o. option_map pure_shape o ≡ function_ty (compound a_tuple (pure_shapes parts))) }
{
    if parts.len() == 2 {
        Ok(Some(Boxed::new(alloc, Shape::Node(Kind::Function, parts))?))
    } else {
        Ok(None)
    }
}

/// The function of these pairs, where no two of them have one argument and differ.
fn function_val(alloc: Global, pairs: Row<Pair>) -> Result<Option<Boxed<Val>>, NoMemory>
    ensures { IfOk result (λ o. option_map pure_val o ≡ the_function (map pure_pair pairs)) }
{
    match function_of(alloc, pairs) {
        Ok(val) => Ok(Some(Boxed::new(alloc, val)?)),
        Err(FunctionNo::DoubleArgument) => Ok(None),
        Err(FunctionNo::NoMemory) => Err(NoMemory),
    }
}

/// A relation literal, where its tuples agree.
pub fn relation(alloc: Global, parts: Option<Parts>) -> Result<Option<Literal>, NoMemory>
    ensures { IfOk result (λ o. option_map pure_literal o ≡ and_then (option_map pure_parts parts) (typed_node relation_literal)) }
{
    let Some(parts) = parts else {
        return Ok(None);
    };
    let Some(tuple) = join_all(alloc, parts.shapes.as_slice())? else {
        return Ok(None);
    };
    match relation_shape(alloc, tuple)? {
        Some(shape) => Ok(Some(Literal {
            shape,
            val: Boxed::new(alloc, Val::Relation(sorted_once(parts.vals)?))?,
        })),
        None => Ok(None),
    }
}

/// The type of a relation with tuples of this type.
fn relation_shape(alloc: Global, tuple: Boxed<Shape>) -> Result<Option<Boxed<Shape>>, NoMemory>
    ensures { IfOk result (λ o. option_map pure_shape o ≡ relation_ty (pure_shape tuple)) }
{
    match tuple.into_inner() {
        Shape::Any => {
            let none = Row::new(alloc);
            Ok(Some(Boxed::new(alloc, Shape::Node(Kind::Relation, none))?))
        }
        Shape::Node(Kind::Tuple, parts) => {
            Ok(Some(Boxed::new(alloc, Shape::Node(Kind::Relation, parts))?))
        }
        other => {
            drop(other);
            Ok(None)
        }
    }
}

/// A partition literal, where its parts agree, none is empty and no two share a member.
pub fn partition(alloc: Global, parts: Option<Parts>) -> Result<Option<Literal>, NoMemory>
    requires { ForSome parts (λ p. SetsWhereTyped (pure_parts p)) }
    ensures { IfOk result (λ o. option_map pure_literal o ≡ and_then (option_map pure_parts parts) (typed_node partition_literal)) }
{
    let Some(parts) = parts else {
        return Ok(None);
    };
    let Some(part) = join_all(alloc, parts.shapes.as_slice())? else {
        return Ok(None);
    };
    let Some(shape) = partition_shape(alloc, part)? else {
        return Ok(None);
    };
    match partition_val(alloc, parts.vals)? {
        Some(val) => Ok(Some(Literal { shape, val })),
        None => Ok(None),
    }
}

/// The type of a partition with parts of this type.
fn partition_shape(alloc: Global, part: Boxed<Shape>) -> Result<Option<Boxed<Shape>>, NoMemory>
    ensures { IfOk result (λ o. option_map pure_shape o ≡ partition_ty (pure_shape part)) }
{
    match part.into_inner() {
        Shape::Any => {
            let member = Row::from_array(alloc, [Shape::Any])?;
            Ok(Some(Boxed::new(alloc, Shape::Node(Kind::Partition, member))?))
        }
        Shape::Node(Kind::Set, parts) => Ok(partition_from(alloc, parts)?),
        other => {
            drop(other);
            Ok(None)
        }
    }
}

/// The type of a partition, from the type of a member.
#[tactic(auto, using(crate::proofs::KindLemmas::one_part, crate::proofs::KindLemmas::not_one_part))]
fn partition_from(alloc: Global, parts: Row<Shape>) -> Result<Option<Boxed<Shape>>, NoMemory>
    ensures { IfOk result (λ o. option_map pure_shape o ≡ partition_ty (compound a_set (pure_shapes parts))) }
{
    if parts.len() == 1 {
        Ok(Some(Boxed::new(alloc, Shape::Node(Kind::Partition, parts))?))
    } else {
        Ok(None)
    }
}

/// The partition with these parts, where none is empty and no two share a member.
fn partition_val(alloc: Global, parts: Row<Val>) -> Result<Option<Boxed<Val>>, NoMemory>
    requires { list_all is_set (map pure_val parts) ≡ true }
    ensures { IfOk result (λ o. option_map pure_val o ≡ the_partition (map pure_val parts)) }
{
    match partition_of(alloc, parts) {
        Ok(val) => Ok(Some(Boxed::new(alloc, val)?)),
        Err(PartitionNo::EmptyPart) => Ok(None),
        Err(PartitionNo::Overlap) => Ok(None),
        Err(PartitionNo::NoMemory) => Err(NoMemory),
    }
}

/// A list literal, where its items agree: a matrix whose index begins at 1.
pub fn list(alloc: Global, parts: Option<Parts>) -> Result<Option<Literal>, NoMemory>
    ensures { IfOk result (λ o. option_map pure_literal o ≡ and_then (option_map pure_parts parts) (typed_node matrix_literal)) }
{
    let Some(parts) = parts else {
        return Ok(None);
    };
    match list_shape(alloc, parts.shapes.as_slice())? {
        Some(shape) => {
            let index = index_of_list(alloc, parts.vals.as_slice())?;
            Ok(Some(Literal {
                shape,
                val: Boxed::new(alloc, Val::Matrix(index, parts.vals))?,
            }))
        }
        None => Ok(None),
    }
}

/// The type of a list of items of these types.
fn list_shape(alloc: Global, items: &[Shape]) -> Result<Option<Boxed<Shape>>, NoMemory>
    ensures { IfOk result (λ o. option_map pure_shape o ≡ type_of_list (map pure_shape items.now)) }
{
    if items.is_empty() {
        let any = Row::from_array(alloc, [Shape::Any, Shape::Any])?;
        return Ok(Some(Boxed::new(alloc, Shape::Node(Kind::Matrix, any))?));
    }
    match join_all(alloc, items)? {
        Some(item) => {
            let shapes = two_shapes(alloc, Boxed::new(alloc, Shape::Int)?, item)?;
            Ok(Some(Boxed::new(alloc, Shape::Node(Kind::Matrix, shapes))?))
        }
        None => Ok(None),
    }
}

/// The numbers from 1 on, one for each item.
fn index_of_list(alloc: Global, items: &[Val]) -> Result<Row<Val>, NoMemory>
    ensures { IfOk result (λ r. map pure_val r ≡ numbers_from 1 (map pure_val items.now)) }
{
    let mut index = Row::new(alloc);
    for (i, _) in items.iter().enumerate() {
        index.push(Val::Num(i as i64 + 1))?;
    }
    Ok(index)
}
