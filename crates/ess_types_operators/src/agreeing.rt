//! Whether two types agree: whether there is one type for both. No call takes memory.
ghost use Rattle.std.specs.Prelude.{◌≡◌, is_some, option_map};
ghost use Rattle.std.specs.Option.{option_copied};
ghost use Rattle.ess_semantics.specs.Order.{same_text};
ghost use Rattle.ess_semantics.specs.Types.{bool_ty, int_ty, join, joins, is_bool};
ghost use Rattle.ess_core.specs.TypeViews.{pure_ty, pure_tys};
ghost use Rattle.ess_types_operators.specs.Paired.{paired, field_join, relation_parts};

use ess_core::{FieldTy, Text, Ty};
use std::cmp::Ordering;

/// Whether there is a type with which both agree.
#[cycle(agree)]
#[tactic(auto, using(crate::proofs::Agreement::sets_agree, crate::proofs::Agreement::msets_agree, crate::proofs::Agreement::partitions_agree, crate::proofs::Agreement::matrices_agree, crate::proofs::Agreement::matrices_differ, crate::proofs::Agreement::functions_agree, crate::proofs::Agreement::functions_differ, crate::proofs::Agreement::tuples_agree, crate::proofs::Agreement::records_agree, crate::proofs::Agreement::relations_agree))]
pub fn agree(a: &Ty, b: &Ty) -> bool
    ensures { result ≡ is_some (join (pure_ty a.now) (pure_ty b.now)) }
{
    match (a, b) {
        (Ty::Any, _) => true,
        (_, Ty::Any) => true,
        (Ty::Bool, Ty::Bool) => true,
        (Ty::Int, Ty::Int) => true,
        (Ty::Named(x), Ty::Named(y)) => same_name(x, y),
        (Ty::Tuple(xs), Ty::Tuple(ys)) => agree_all(xs.as_slice(), ys.as_slice()),
        (Ty::Rec(xs), Ty::Rec(ys)) => fields_agree(xs.as_slice(), ys.as_slice()),
        (Ty::Matrix(i, x), Ty::Matrix(j, y)) => agree(i.get(), j.get()) && agree(x.get(), y.get()),
        (Ty::Set(x), Ty::Set(y)) => agree(x.get(), y.get()),
        (Ty::MSet(x), Ty::MSet(y)) => agree(x.get(), y.get()),
        (Ty::Function(i, x), Ty::Function(j, y)) => agree(i.get(), j.get())
            && agree(x.get(), y.get()),
        (Ty::Relation(xs), Ty::Relation(ys)) => relations_agree(xs.as_slice(), ys.as_slice()),
        (Ty::Partition(x), Ty::Partition(y)) => agree(x.get(), y.get()),
        (_, _) => false,
    }
}

/// Whether two names are equal.
pub fn same_name(a: &Text, b: &Text) -> bool
    ensures { result ≡ same_text a.now b.now }
{
    a.cmp(b) == Ordering::Equal
}

/// Whether there are as many types on both sides, and each pair of them agrees.
#[cycle(agree)]
#[tactic(auto, using(crate::proofs::Agreement::lists_agree, crate::proofs::Agreement::tys_more, crate::proofs::Agreement::tys_none, crate::proofs::Agreement::tys_short, crate::proofs::Agreement::tys_long, crate::proofs::Agreement::tys_all))]
pub fn agree_all(xs: &[Ty], ys: &[Ty]) -> bool
    ensures { result ≡ is_some (joins (pure_tys xs.now) (pure_tys ys.now)) }
{
    for (i, x) in xs.iter().enumerate() {
        if i >= ys.len() {
            return false;
        }
        if !agree(x, &ys[i]) {
            return false;
        }
    }
    if xs.len() < ys.len() {
        return false;
    }
    true
}

/// Whether two relations agree, by their parts: one of unknown arity agrees with each.
#[cycle(agree)]
#[tactic(auto, using(crate::proofs::Agreement::relations_each))]
pub fn relations_agree(xs: &[Ty], ys: &[Ty]) -> bool
    ensures { result ≡ is_some (relation_parts xs.now ys.now) }
{
    if xs.is_empty() {
        return true;
    }
    if ys.is_empty() {
        return true;
    }
    agree_all(xs, ys)
}

/// Whether two records agree, by their fields: the same names in order, each with types that agree.
#[cycle(agree)]
#[tactic(auto, using(crate::proofs::Agreement::fields_more, crate::proofs::Agreement::fields_none, crate::proofs::Agreement::fields_short, crate::proofs::Agreement::fields_long, crate::proofs::Agreement::fields_all))]
fn fields_agree(xs: &[FieldTy], ys: &[FieldTy]) -> bool
    ensures { result ≡ is_some (paired field_join xs.now ys.now) }
{
    for (i, x) in xs.iter().enumerate() {
        if i >= ys.len() {
            return false;
        }
        if !field_agrees(x, &ys[i]) {
            return false;
        }
    }
    if xs.len() < ys.len() {
        return false;
    }
    true
}

/// Whether two fields have one name, and types that agree.
#[cycle(agree)]
#[tactic(auto, using(crate::proofs::Agreement::same_fields, crate::proofs::Agreement::other_fields))]
fn field_agrees(x: &FieldTy, y: &FieldTy) -> bool
    ensures { result ≡ is_some (field_join x.now y.now) }
{
    if !same_name(&x.name, &y.name) {
        return false;
    }
    agree(&x.ty, &y.ty)
}

/// Whether the type agrees with that of truth values.
pub fn fits_bool(ty: &Ty) -> bool
    ensures { result ≡ is_some (join (pure_ty ty.now) bool_ty) }
{
    match ty {
        Ty::Any => true,
        Ty::Bool => true,
        _ => false,
    }
}

/// Whether the type agrees with that of numbers.
pub fn fits_int(ty: &Ty) -> bool
    ensures { result ≡ is_some (join (pure_ty ty.now) int_ty) }
{
    match ty {
        Ty::Any => true,
        Ty::Int => true,
        _ => false,
    }
}

/// Whether there is a type, and it is that of truth values.
pub fn is_bool(ty: Option<&Ty>) -> bool
    ensures { result ≡ is_bool (option_map pure_ty (option_copied ty.entry)) }
{
    match ty {
        Some(Ty::Bool) => true,
        _ => false,
    }
}
