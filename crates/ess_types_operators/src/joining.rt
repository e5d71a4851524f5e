//! The type with which two or more types agree.
ghost use Rattle.std.specs.Prelude.{◌≡◌, map, option_map, IfOk};
ghost use Rattle.ess_semantics.specs.Lists.{when};
ghost use Rattle.ess_semantics.specs.Order.{same_text};
ghost use Rattle.ess_semantics.specs.Types.{join as join_of, join_all as join_of_all, named_ty};
ghost use Rattle.ess_core.specs.TypeViews.{pure_ty, pure_tys, pure_field_ty};
ghost use Rattle.ess_types_operators.specs.Paired.{paired, ty_join, field_join, relation_parts};

use crate::agreeing::same_name;
use crate::building::{
    copied, copied_tys, function_of, made, matrix_of, mset_of, partition_of, record_of,
    relation_of, set_of, tuple_of,
};
use ess_core::{Boxed, FieldTy, NoMemory, Row, Text, Ty};
use std::alloc::Global;

/// The type with which both agree, where there is one. `NoMemory` where there is no room for it.
#[cycle(join)]
#[tactic(auto, using(crate::proofs::Joins::join_any, crate::proofs::Joined::sets_joined, crate::proofs::Joined::msets_joined, crate::proofs::Joined::partitions_joined, crate::proofs::Joined::matrices_joined, crate::proofs::Joined::functions_joined, crate::proofs::Joined::tuples_joined, crate::proofs::Joined::recs_joined, crate::proofs::Joined::rels_joined))]
pub fn join(alloc: Global, a: &Ty, b: &Ty) -> Result<Option<Boxed<Ty>>, NoMemory>
    ensures { IfOk result (λ o. option_map pure_ty o ≡ join_of (pure_ty a.now) (pure_ty b.now)) }
{
    match (a, b) {
        (Ty::Any, _) => copied(alloc, b),
        (_, Ty::Any) => copied(alloc, a),
        (Ty::Bool, Ty::Bool) => made(alloc, Ty::Bool),
        (Ty::Int, Ty::Int) => made(alloc, Ty::Int),
        (Ty::Named(x), Ty::Named(y)) => join_names(alloc, x, y),
        (Ty::Tuple(xs), Ty::Tuple(ys)) => {
            tuple_of(alloc, join_each(alloc, xs.as_slice(), ys.as_slice())?)
        }
        (Ty::Rec(xs), Ty::Rec(ys)) => {
            record_of(alloc, join_fields(alloc, xs.as_slice(), ys.as_slice())?)
        }
        (Ty::Matrix(i, x), Ty::Matrix(j, y)) => {
            let index = join(alloc, i.get(), j.get())?;
            matrix_of(alloc, index, join(alloc, x.get(), y.get())?)
        }
        (Ty::Set(x), Ty::Set(y)) => set_of(alloc, join(alloc, x.get(), y.get())?),
        (Ty::MSet(x), Ty::MSet(y)) => mset_of(alloc, join(alloc, x.get(), y.get())?),
        (Ty::Function(i, x), Ty::Function(j, y)) => {
            let from = join(alloc, i.get(), j.get())?;
            function_of(alloc, from, join(alloc, x.get(), y.get())?)
        }
        (Ty::Relation(xs), Ty::Relation(ys)) => {
            relation_of(alloc, join_relations(alloc, xs.as_slice(), ys.as_slice())?)
        }
        (Ty::Partition(x), Ty::Partition(y)) => {
            partition_of(alloc, join(alloc, x.get(), y.get())?)
        }
        (_, _) => Ok(None),
    }
}

/// The type of two names, where they are equal.
fn join_names(alloc: Global, a: &Text, b: &Text) -> Result<Option<Boxed<Ty>>, NoMemory>
    ensures { IfOk result (λ o. option_map pure_ty o ≡ when (same_text a.now b.now) (named_ty a.now)) }
{
    if same_name(a, b) {
        made(alloc, Ty::Named(a.copy(alloc)?))
    } else {
        Ok(None)
    }
}

/// The joins of types in pairs, where there are as many on both sides and each pair has one.
#[cycle(join)]
#[tactic(auto, using(crate::proofs::Joined::tys_more, crate::proofs::Joined::tys_none, crate::proofs::Joined::tys_short, crate::proofs::Joined::tys_long, crate::proofs::Joined::tys_all))]
fn join_each(alloc: Global, xs: &[Ty], ys: &[Ty]) -> Result<Option<Row<Ty>>, NoMemory>
    ensures { IfOk result (λ o. option_map (map pure_ty) o ≡ paired ty_join xs.now ys.now) }
{
    let mut joined = Row::new(alloc);
    for (i, x) in xs.iter().enumerate() {
        if i >= ys.len() {
            return Ok(None);
        }
        match join(alloc, x, &ys[i])? {
            Some(ty) => joined.push(ty.into_inner())?,
            None => return Ok(None),
        }
    }
    if xs.len() < ys.len() {
        Ok(None)
    } else {
        Ok(Some(joined))
    }
}

/// The parts of the join of two relations: one of unknown arity has those of the other.
#[cycle(join)]
#[tactic(auto, using(crate::proofs::Joined::relations_each))]
fn join_relations(alloc: Global, xs: &[Ty], ys: &[Ty]) -> Result<Option<Row<Ty>>, NoMemory>
    ensures { IfOk result (λ o. option_map pure_tys o ≡ relation_parts xs.now ys.now) }
{
    if xs.is_empty() {
        return Ok(Some(copied_tys(alloc, ys)?));
    }
    if ys.is_empty() {
        return Ok(Some(copied_tys(alloc, xs)?));
    }
    join_each(alloc, xs, ys)
}

/// The joins of fields in pairs, where there are as many on both sides and each pair has one.
#[cycle(join)]
#[tactic(auto, using(crate::proofs::Joined::fields_more, crate::proofs::Joined::fields_none, crate::proofs::Joined::fields_short, crate::proofs::Joined::fields_long, crate::proofs::Joined::fields_all))]
fn join_fields(
    alloc: Global,
    xs: &[FieldTy],
    ys: &[FieldTy],
) -> Result<Option<Row<FieldTy>>, NoMemory>
    ensures { IfOk result (λ o. option_map (map pure_field_ty) o ≡ paired field_join xs.now ys.now) }
{
    let mut joined = Row::new(alloc);
    for (i, x) in xs.iter().enumerate() {
        if i >= ys.len() {
            return Ok(None);
        }
        match join_field(alloc, x, &ys[i])? {
            Some(field) => joined.push(field.into_inner())?,
            None => return Ok(None),
        }
    }
    if xs.len() < ys.len() {
        Ok(None)
    } else {
        Ok(Some(joined))
    }
}

/// The join of two fields, where they have one name and their types have a join.
#[cycle(join)]
#[tactic(auto, using(crate::proofs::Joined::fields_of_one_name, crate::proofs::Agreement::other_fields))]
fn join_field(alloc: Global, x: &FieldTy, y: &FieldTy) -> Result<Option<Boxed<FieldTy>>, NoMemory>
    ensures { IfOk result (λ o. option_map pure_field_ty o ≡ field_join x.now y.now) }
{
    if !same_name(&x.name, &y.name) {
        return Ok(None);
    }
    match join(alloc, &x.ty, &y.ty)? {
        Some(ty) => Ok(Some(named(alloc, x.name.copy(alloc)?, ty)?)),
        None => Ok(None),
    }
}

/// A field with its name and type.
fn named(alloc: Global, name: Text, ty: Boxed<Ty>) -> Result<Boxed<FieldTy>, NoMemory>
    ensures { IfOk result (λ f. pure_field_ty f ≡ (name, pure_ty ty)) }
{
    Boxed::new(
        alloc,
        FieldTy {
            name,
            ty: ty.into_inner(),
        },
    )
}

/// The type with which all agree, where there is one. `NoMemory` where there is no room for it.
#[tactic(auto, using(crate::proofs::Joined::all_more, crate::proofs::Joined::all_none))]
pub fn join_all(alloc: Global, tys: &[Ty]) -> Result<Option<Boxed<Ty>>, NoMemory>
    ensures { IfOk result (λ o. option_map pure_ty o ≡ join_of_all (map pure_ty tys.now)) }
{
    let mut joined = Boxed::new(alloc, Ty::Any)?;
    for k in 0..tys.len() {
        match join(alloc, &tys[tys.len() - 1 - k], joined.get())? {
            Some(ty) => joined = ty,
            None => return Ok(None),
        }
    }
    Ok(Some(joined))
}
