//! Types made of their parts, in a box. `NoMemory` where there is no room for it.
ghost use Rattle.std.specs.Prelude.{◌≡◌, map, Some, option_map, IfOk};
ghost use Rattle.ess_semantics.specs.Lists.{and_then, when};
ghost use Rattle.ess_semantics.specs.Values.{a_tuple, a_matrix, a_set, a_mset, a_function, a_relation, a_partition};
ghost use Rattle.ess_semantics.specs.Types.{bool_ty, int_ty, compound, compound1, compound2, tys_of};
ghost use Rattle.ess_semantics.specs.OperatorTypes.{record_ty};
ghost use Rattle.ess_core.specs.TypeViews.{pure_ty, pure_tys, pure_field_ty};

use ess_core::{Boxed, FieldTy, NoMemory, Row, Ty};
use std::alloc::Global;

/// The type.
pub fn made(alloc: Global, ty: Ty) -> Result<Option<Boxed<Ty>>, NoMemory>
    ensures { IfOk result (λ o. option_map pure_ty o ≡ Some (pure_ty ty)) }
{
    Ok(Some(Boxed::new(alloc, ty)?))
}

/// A copy of the type.
pub fn copied(alloc: Global, ty: &Ty) -> Result<Option<Boxed<Ty>>, NoMemory>
    ensures { IfOk result (λ o. option_map pure_ty o ≡ Some (pure_ty ty.now)) }
{
    match ty.copy(alloc) {
        Ok(copy) => made(alloc, copy),
        Err(no) => Err(no),
    }
}

/// Copies of several types.
pub fn copied_tys(alloc: Global, tys: &[Ty]) -> Result<Row<Ty>, NoMemory>
    ensures { IfOk result (λ r. r ≡ tys.now) }
{
    let mut copies = Row::with_capacity(alloc, tys.len())?;
    for ty in tys {
        match ty.copy(alloc) {
            Ok(copy) => copies.push(copy)?,
            Err(no) => return Err(no),
        }
    }
    Ok(copies)
}

/// The type of sets of members of this type.
pub fn set_of(alloc: Global, member: Option<Boxed<Ty>>) -> Result<Option<Boxed<Ty>>, NoMemory>
    ensures { IfOk result (λ o. option_map pure_ty o ≡ option_map (compound1 a_set) (option_map pure_ty member)) }
{
    match member {
        Some(member) => made(alloc, Ty::Set(member)),
        None => Ok(None),
    }
}

/// The type of multisets of members of this type.
pub fn mset_of(alloc: Global, member: Option<Boxed<Ty>>) -> Result<Option<Boxed<Ty>>, NoMemory>
    ensures { IfOk result (λ o. option_map pure_ty o ≡ option_map (compound1 a_mset) (option_map pure_ty member)) }
{
    match member {
        Some(member) => made(alloc, Ty::MSet(member)),
        None => Ok(None),
    }
}

/// The type of partitions of members of this type.
pub fn partition_of(alloc: Global, member: Option<Boxed<Ty>>) -> Result<Option<Boxed<Ty>>, NoMemory>
    ensures { IfOk result (λ o. option_map pure_ty o ≡ option_map (compound1 a_partition) (option_map pure_ty member)) }
{
    match member {
        Some(member) => made(alloc, Ty::Partition(member)),
        None => Ok(None),
    }
}

/// The type of matrices with these types of the index and the items.
pub fn matrix_of(
    alloc: Global,
    index: Option<Boxed<Ty>>,
    item: Option<Boxed<Ty>>,
) -> Result<Option<Boxed<Ty>>, NoMemory>
    ensures { IfOk result (λ o. option_map pure_ty o ≡ and_then (option_map pure_ty index) (λ i. option_map (compound2 a_matrix i) (option_map pure_ty item))) }
{
    match index {
        Some(index) => match item {
            Some(item) => made(alloc, Ty::Matrix(index, item)),
            None => Ok(None),
        },
        None => Ok(None),
    }
}

/// The type of functions with these types of the arguments and the values.
pub fn function_of(
    alloc: Global,
    from: Option<Boxed<Ty>>,
    to: Option<Boxed<Ty>>,
) -> Result<Option<Boxed<Ty>>, NoMemory>
    ensures { IfOk result (λ o. option_map pure_ty o ≡ and_then (option_map pure_ty from) (λ i. option_map (compound2 a_function i) (option_map pure_ty to))) }
{
    match from {
        Some(from) => match to {
            Some(to) => made(alloc, Ty::Function(from, to)),
            None => Ok(None),
        },
        None => Ok(None),
    }
}

/// The type of tuples of components of these types.
pub fn tuple_of(alloc: Global, parts: Option<Row<Ty>>) -> Result<Option<Boxed<Ty>>, NoMemory>
    ensures { IfOk result (λ o. option_map pure_ty o ≡ option_map (λ ts. compound a_tuple (tys_of ts)) (option_map (map pure_ty) parts)) }
{
    match parts {
        Some(parts) => made(alloc, Ty::Tuple(parts)),
        None => Ok(None),
    }
}

/// The type of relations of components of these types.
pub fn relation_of(alloc: Global, parts: Option<Row<Ty>>) -> Result<Option<Boxed<Ty>>, NoMemory>
    ensures { IfOk result (λ o. option_map pure_ty o ≡ option_map (compound a_relation) (option_map pure_tys parts)) }
{
    match parts {
        Some(parts) => made(alloc, Ty::Relation(parts)),
        None => Ok(None),
    }
}

/// The type of records with these fields.
pub fn record_of(alloc: Global, fields: Option<Row<FieldTy>>) -> Result<Option<Boxed<Ty>>, NoMemory>
    ensures { IfOk result (λ o. option_map pure_ty o ≡ option_map record_ty (option_map (map pure_field_ty) fields)) }
{
    match fields {
        Some(fields) => made(alloc, Ty::Rec(fields)),
        None => Ok(None),
    }
}

/// The type of truth values, where the test says so.
pub fn bool_where(alloc: Global, fits: bool) -> Result<Option<Boxed<Ty>>, NoMemory>
    ensures { IfOk result (λ o. option_map pure_ty o ≡ when fits bool_ty) }
{
    if fits {
        made(alloc, Ty::Bool)
    } else {
        Ok(None)
    }
}

/// The type of numbers, where the test says so.
pub fn int_where(alloc: Global, fits: bool) -> Result<Option<Boxed<Ty>>, NoMemory>
    ensures { IfOk result (λ o. option_map pure_ty o ≡ when fits int_ty) }
{
    if fits { made(alloc, Ty::Int) } else { Ok(None) }
}

/// A copy of the type, where the test says so.
pub fn copied_where(alloc: Global, fits: bool, ty: &Ty) -> Result<Option<Boxed<Ty>>, NoMemory>
    ensures { IfOk result (λ o. option_map pure_ty o ≡ when fits (pure_ty ty.now)) }
{
    if fits { copied(alloc, ty) } else { Ok(None) }
}
