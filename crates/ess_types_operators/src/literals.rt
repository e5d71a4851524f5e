//! The types of applications, literals and comprehensions.
ghost use Rattle.std.specs.Prelude.{◌≡◌, map, Some, option_map, IfOk};
ghost use Rattle.ess_semantics.specs.Lists.{and_then};
ghost use Rattle.ess_semantics.specs.Values.{a_tuple, a_matrix, a_set, a_mset};
ghost use Rattle.ess_semantics.specs.Types.{join_all as join_of_all, type_of_dom as members_of, int_ty, compound, compound1, compound2};
ghost use Rattle.ess_semantics.specs.OperatorTypes.{type_of_application, function_ty, relation_ty, partition_ty, type_of_list};
ghost use Rattle.ess_core.specs.TypeViews.{pure_ty, pure_tys};
ghost use Rattle.ess_core.specs.TreeViews.{pure_dom};

use crate::agreeing::{agree, relations_agree};
use crate::building::{
    bool_where, copied, copied_where, function_of, made, matrix_of, mset_of, partition_of,
    relation_of, set_of,
};
use crate::domains::type_of_dom;
use crate::joining::join_all;
use ess_core::{Boxed, Dom, NoMemory, Row, Ty};
use std::alloc::Global;

/// The type of a function at an argument, or of a relation at a tuple, where they fit. `NoMemory` where there is no room
/// for it.
#[tactic(auto, using(crate::proofs::LiteralLemmas::function_at, crate::proofs::LiteralLemmas::function_elsewhere, crate::proofs::LiteralLemmas::relation_at))]
pub fn type_of_application(
    alloc: Global,
    applied: &Ty,
    tys: &[Ty],
) -> Result<Option<Boxed<Ty>>, NoMemory>
    ensures { IfOk result (λ o. option_map pure_ty o ≡ type_of_application (pure_ty applied.now) (map pure_ty tys.now)) }
{
    match applied {
        Ty::Function(from, to) => {
            if tys.len() == 1 {
                Ok(copied_where(alloc, agree(from.get(), &tys[0]), to.get())?)
            } else {
                Ok(None)
            }
        }
        Ty::Relation(parts) => Ok(bool_where(alloc, relations_agree(parts.as_slice(), tys))?),
        Ty::Any => Ok(made(alloc, Ty::Any)?),
        _ => Ok(None),
    }
}

/// The type of a tuple of components of these types. `NoMemory` where there is no room for it.
pub fn type_of_tuple(alloc: Global, tys: Row<Ty>) -> Result<Boxed<Ty>, NoMemory>
    ensures { IfOk result (λ t. pure_ty t ≡ compound a_tuple (pure_tys tys)) }
{
    Boxed::new(alloc, Ty::Tuple(tys))
}

/// The type of a pair of a function literal. `NoMemory` where there is no room for it.
pub fn type_of_pair(alloc: Global, from: Boxed<Ty>, to: Boxed<Ty>) -> Result<Boxed<Ty>, NoMemory>
    ensures { IfOk result (λ t. pure_ty t ≡ compound2 a_tuple (pure_ty from) (pure_ty to)) }
{
    let mut parts = Row::with_capacity(alloc, 2)?;
    parts.push(from.into_inner())?;
    parts.push(to.into_inner())?;
    Boxed::new(alloc, Ty::Tuple(parts))
}

/// The type of a set literal with members of these types, where all agree. `NoMemory` where there is no room for it.
pub fn type_of_set(alloc: Global, tys: &[Ty]) -> Result<Option<Boxed<Ty>>, NoMemory>
    ensures { IfOk result (λ o. option_map pure_ty o ≡ option_map (compound1 a_set) (join_of_all (map pure_ty tys.now))) }
{
    set_of(alloc, join_all(alloc, tys)?)
}

/// The type of a multiset literal with members of these types, where all agree. `NoMemory` where there is no room for it.
pub fn type_of_mset(alloc: Global, tys: &[Ty]) -> Result<Option<Boxed<Ty>>, NoMemory>
    ensures { IfOk result (λ o. option_map pure_ty o ≡ option_map (compound1 a_mset) (join_of_all (map pure_ty tys.now))) }
{
    mset_of(alloc, join_all(alloc, tys)?)
}

/// The type of a function literal with pairs of these types, where all agree. `NoMemory` where there is no room for it.
pub fn type_of_function(alloc: Global, tys: &[Ty]) -> Result<Option<Boxed<Ty>>, NoMemory>
    ensures { IfOk result (λ o. option_map pure_ty o ≡ and_then (join_of_all (map pure_ty tys.now)) function_ty) }
{
    match join_all(alloc, tys)? {
        Some(ty) => function_type(alloc, ty.get()),
        None => Ok(None),
    }
}

/// The type of a function literal with pairs of this type.
fn function_type(alloc: Global, pair: &Ty) -> Result<Option<Boxed<Ty>>, NoMemory>
    ensures { IfOk result (λ o. option_map pure_ty o ≡ function_ty (pure_ty pair.now)) }
{
    match pair {
        Ty::Tuple(parts) => function_of_parts(alloc, parts.as_slice()),
        Ty::Any => {
            let from = made(alloc, Ty::Any)?;
            function_of(alloc, from, made(alloc, Ty::Any)?)
        }
        _ => Ok(None),
    }
}

/// The type of a function literal with pairs of components of these types.
#[tactic(auto, using(crate::proofs::LiteralLemmas::pair_parts, crate::proofs::LiteralLemmas::other_parts))]
fn function_of_parts(alloc: Global, parts: &[Ty]) -> Result<Option<Boxed<Ty>>, NoMemory>
    ensures { IfOk result (λ o. option_map pure_ty o ≡ function_ty (compound a_tuple (pure_tys parts.now))) }
{
    if parts.len() == 2 {
        let from = copied(alloc, &parts[0])?;
        return Ok(function_of(alloc, from, copied(alloc, &parts[1])?)?);
    }
    Ok(None)
}

/// The type of a relation literal with tuples of these types, where all agree. `NoMemory` where there is no room for it.
pub fn type_of_relation(alloc: Global, tys: &[Ty]) -> Result<Option<Boxed<Ty>>, NoMemory>
    ensures { IfOk result (λ o. option_map pure_ty o ≡ and_then (join_of_all (map pure_ty tys.now)) relation_ty) }
{
    match join_all(alloc, tys)? {
        Some(ty) => relation_type(alloc, ty),
        None => Ok(None),
    }
}

/// The type of a relation literal with tuples of this type.
fn relation_type(alloc: Global, tuple: Boxed<Ty>) -> Result<Option<Boxed<Ty>>, NoMemory>
    ensures { IfOk result (λ o. option_map pure_ty o ≡ relation_ty (pure_ty tuple)) }
{
    match tuple.into_inner() {
        Ty::Tuple(parts) => relation_of(alloc, Some(parts)),
        Ty::Any => relation_of(alloc, Some(Row::new(alloc))),
        other => {
            drop(other);
            Ok(None)
        }
    }
}

/// The type of a partition literal with parts of these types, where all agree. `NoMemory` where there is no room for it.
pub fn type_of_partition(alloc: Global, tys: &[Ty]) -> Result<Option<Boxed<Ty>>, NoMemory>
    ensures { IfOk result (λ o. option_map pure_ty o ≡ and_then (join_of_all (map pure_ty tys.now)) partition_ty) }
{
    match join_all(alloc, tys)? {
        Some(ty) => partition_type(alloc, ty.get()),
        None => Ok(None),
    }
}

/// The type of a partition literal with parts of this type.
fn partition_type(alloc: Global, part: &Ty) -> Result<Option<Boxed<Ty>>, NoMemory>
    ensures { IfOk result (λ o. option_map pure_ty o ≡ partition_ty (pure_ty part.now)) }
{
    match part {
        Ty::Set(member) => partition_of(alloc, copied(alloc, member.get())?),
        Ty::Any => partition_of(alloc, made(alloc, Ty::Any)?),
        _ => Ok(None),
    }
}

/// The type of a matrix literal without an index domain, with items of these types, where all agree. `NoMemory` where
/// there is no room for it.
#[tactic(auto, using(crate::proofs::LiteralLemmas::empty_list, crate::proofs::LiteralLemmas::some_list))]
pub fn type_of_list(alloc: Global, tys: &[Ty]) -> Result<Option<Boxed<Ty>>, NoMemory>
    ensures { IfOk result (λ o. option_map pure_ty o ≡ type_of_list (map pure_ty tys.now)) }
{
    let index = if tys.is_empty() {
        made(alloc, Ty::Any)?
    } else {
        made(alloc, Ty::Int)?
    };
    Ok(matrix_of(alloc, index, join_all(alloc, tys)?)?)
}

/// The type of a matrix literal over an index domain, with items of these types, where all agree. `NoMemory` where there
/// is no room for it.
pub fn type_of_matrix(alloc: Global, tys: &[Ty], dom: &Dom) -> Result<Option<Boxed<Ty>>, NoMemory>
    ensures { IfOk result (λ o. option_map pure_ty o ≡ option_map (compound2 a_matrix (members_of (pure_dom dom.now))) (join_of_all (map pure_ty tys.now))) }
{
    let index = type_of_dom(alloc, dom)?;
    matrix_of(alloc, Some(index), join_all(alloc, tys)?)
}

/// The type of a comprehension with items of this type. `NoMemory` where there is no room for it.
pub fn type_of_comprehension(alloc: Global, item: Boxed<Ty>) -> Result<Boxed<Ty>, NoMemory>
    ensures { IfOk result (λ t. pure_ty t ≡ compound2 a_matrix int_ty (pure_ty item)) }
{
    let index = Boxed::new(alloc, Ty::Int)?;
    Boxed::new(alloc, Ty::Matrix(index, item))
}
