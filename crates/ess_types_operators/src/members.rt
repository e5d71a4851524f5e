//! The types of members: of what a generator takes from a source, and of what operators ask.
ghost use Rattle.std.specs.Prelude.{◌≡◌, [], ◌∷◌, Some, option_map, IfOk};
ghost use Rattle.std.specs.Option.{option_copied};
ghost use Rattle.ess_semantics.specs.Lists.{and_then, when};
ghost use Rattle.ess_semantics.specs.Values.{a_tuple};
ghost use Rattle.ess_semantics.specs.Types.{compound2, or_any};
ghost use Rattle.ess_semantics.specs.OperatorTypes.{member_ty, asked_ty, list_ty, chosen_ty, extreme_ty, tuple_ty};
ghost use Rattle.ess_core.specs.TypeViews.{pure_ty, pure_tys};

use crate::building::{copied, copied_tys, copied_where, made, set_of};
use ess_core::{Boxed, NoMemory, Row, Ty};
use std::alloc::Global;

/// The type of what a generator takes from a source of this type, where it may be one: the members of a set or multiset,
/// the pairs of a function, the tuples of a relation, the parts of a partition, the items of a matrix. `NoMemory` where
/// there is no room for it.
pub fn member_type(alloc: Global, ty: &Ty) -> Result<Option<Boxed<Ty>>, NoMemory>
    ensures { IfOk result (λ o. option_map pure_ty o ≡ member_ty (pure_ty ty.now)) }
{
    match ty {
        Ty::Set(member) => copied(alloc, member.get()),
        Ty::MSet(member) => copied(alloc, member.get()),
        Ty::Function(from, to) => pair_type(alloc, from.get(), to.get()),
        Ty::Relation(parts) => tuple_type(alloc, parts.as_slice()),
        Ty::Partition(member) => set_of(alloc, copied(alloc, member.get())?),
        Ty::Matrix(_, item) => copied(alloc, item.get()),
        Ty::Any => made(alloc, Ty::Any),
        Ty::Bool => Ok(None),
        Ty::Int => Ok(None),
        Ty::Named(_) => Ok(None),
        Ty::Tuple(_) => Ok(None),
        Ty::Rec(_) => Ok(None),
    }
}

/// The type of the pairs of a function.
fn pair_type(alloc: Global, from: &Ty, to: &Ty) -> Result<Option<Boxed<Ty>>, NoMemory>
    ensures { IfOk result (λ o. option_map pure_ty o ≡ Some (compound2 a_tuple (pure_ty from.now) (pure_ty to.now))) }
{
    made(alloc, Ty::Tuple(pair_row(alloc, from, to)?))
}

/// Copies of two types in a row.
pub fn pair_row(alloc: Global, from: &Ty, to: &Ty) -> Result<Row<Ty>, NoMemory>
    ensures { IfOk result (λ r. r ≡ from.now ∷ to.now ∷ []) }
{
    let mut parts = Row::with_capacity(alloc, 2)?;
    match from.copy(alloc) {
        Ok(copy) => parts.push(copy)?,
        Err(no) => return Err(no),
    }
    match to.copy(alloc) {
        Ok(copy) => parts.push(copy)?,
        Err(no) => return Err(no),
    }
    Ok(parts)
}

/// The type of the tuples of a relation. Those of a relation of unknown arity have any type.
#[tactic(auto, using(crate::proofs::MemberLemmas::no_parts, crate::proofs::MemberLemmas::some_parts))]
fn tuple_type(alloc: Global, parts: &[Ty]) -> Result<Option<Boxed<Ty>>, NoMemory>
    ensures { IfOk result (λ o. option_map pure_ty o ≡ Some (tuple_ty (pure_tys parts.now))) }
{
    if parts.is_empty() {
        return Ok(made(alloc, Ty::Any)?);
    }
    let copies = copied_tys(alloc, parts)?;
    Ok(made(alloc, Ty::Tuple(copies))?)
}

/// The type of what a generator takes from a source, where the source has a type that may be one; else that of the members
/// of an empty literal. `NoMemory` where there is no room for it.
pub fn source_type(alloc: Global, ty: Option<&Ty>) -> Result<Boxed<Ty>, NoMemory>
    ensures { IfOk result (λ t. pure_ty t ≡ or_any (and_then (option_map pure_ty (option_copied ty.entry)) member_ty)) }
{
    match ty {
        Some(ty) => member_or_any(alloc, ty),
        None => Boxed::new(alloc, Ty::Any),
    }
}

/// The same of a source that has a type.
fn member_or_any(alloc: Global, ty: &Ty) -> Result<Boxed<Ty>, NoMemory>
    ensures { IfOk result (λ t. pure_ty t ≡ or_any (member_ty (pure_ty ty.now))) }
{
    match member_type(alloc, ty)? {
        Some(member) => Ok(member),
        None => Boxed::new(alloc, Ty::Any),
    }
}

/// The type of the members of which `in` asks.
pub fn asked_type(alloc: Global, ty: &Ty) -> Result<Option<Boxed<Ty>>, NoMemory>
    ensures { IfOk result (λ o. option_map pure_ty o ≡ asked_ty (pure_ty ty.now)) }
{
    match ty {
        Ty::Function(_, _) => Ok(None),
        Ty::Partition(_) => Ok(None),
        Ty::Matrix(_, _) => Ok(None),
        _ => member_type(alloc, ty),
    }
}

/// The type of the items of a list.
pub fn items_of<'a>(ty: &'a Ty) -> Option<&'a Ty>
    ensures { option_map pure_ty (option_copied result) ≡ list_ty (pure_ty ty.now) }
{
    match ty {
        Ty::Matrix(_, item) => Some(item.get()),
        Ty::Any => Some(ty),
        _ => None,
    }
}

/// Whether `min` and `max` choose among values of this type.
fn is_chosen(ty: &Ty) -> bool
    ensures { chosen_ty (pure_ty ty.now) ≡ when result (pure_ty ty.now) }
{
    match ty {
        Ty::Int => true,
        Ty::Named(_) => true,
        Ty::Any => true,
        _ => false,
    }
}

/// The type, where `min` and `max` choose among its values.
fn chosen_type(alloc: Global, ty: &Ty) -> Result<Option<Boxed<Ty>>, NoMemory>
    ensures { IfOk result (λ o. option_map pure_ty o ≡ chosen_ty (pure_ty ty.now)) }
{
    copied_where(alloc, is_chosen(ty), ty)
}

/// The type of a least or greatest member.
pub fn extreme_type(alloc: Global, ty: &Ty) -> Result<Option<Boxed<Ty>>, NoMemory>
    ensures { IfOk result (λ o. option_map pure_ty o ≡ extreme_ty (pure_ty ty.now)) }
{
    match ty {
        Ty::Set(member) => chosen_type(alloc, member.get()),
        Ty::MSet(member) => chosen_type(alloc, member.get()),
        Ty::Matrix(_, item) => chosen_type(alloc, item.get()),
        Ty::Any => made(alloc, Ty::Any),
        _ => Ok(None),
    }
}
