//! The types of function words.
ghost use Rattle.std.specs.Prelude.{◌≡◌, is_some, map, option_map, IfOk};
ghost use Rattle.ess_semantics.specs.Lists.{and_then};
ghost use Rattle.ess_semantics.specs.Values.{a_partition, a_set};
ghost use Rattle.ess_semantics.specs.Types.{join as join_of, bool_ty, int_ty, fit, compound1};
ghost use Rattle.ess_semantics.specs.OperatorTypes.{list_ty, to_set_ty, to_mset_ty, type_of_word, type_of_word1, type_of_word2};
ghost use Rattle.ess_semantics.specs.declared.words.Fun.TheVariants as Word;
ghost use Rattle.ess_core.specs.TypeViews.{pure_ty};

use crate::agreeing::{agree, fits_bool, fits_int};
use crate::building::{
    bool_where, copied, copied_where, int_where, made, mset_of, relation_of, set_of,
};
use crate::joining::join;
use crate::members::{extreme_type, items_of, member_type, pair_row};
use ess_core::{Boxed, Fun, NoMemory, Row, Ty};
use std::alloc::Global;

/// The type of a function word on operands of these types, where they fit. `NoMemory` where there is no room for it.
#[tactic(auto, using(crate::proofs::WordLemmas::one_operand, crate::proofs::WordLemmas::two_operands, crate::proofs::WordLemmas::other_operands))]
pub fn type_of_word(alloc: Global, fun: Fun, tys: &[Ty]) -> Result<Option<Boxed<Ty>>, NoMemory>
    ensures { IfOk result (λ o. option_map pure_ty o ≡ type_of_word fun (map pure_ty tys.now)) }
{
    if tys.len() == 1 {
        return Ok(type_of_word_on_one(alloc, fun, &tys[0])?);
    }
    if tys.len() == 2 {
        return Ok(type_of_word_on_two(alloc, fun, &tys[0], &tys[1])?);
    }
    Ok(None)
}

/// The type of a function word on one operand.
fn type_of_word_on_one(alloc: Global, fun: Fun, ty: &Ty) -> Result<Option<Boxed<Ty>>, NoMemory>
    ensures { IfOk result (λ o. option_map pure_ty o ≡ type_of_word1 fun (pure_ty ty.now)) }
{
    match fun {
        Fun::Sum => number_list(alloc, ty),
        Fun::Product => number_list(alloc, ty),
        Fun::And => truth_list(alloc, ty),
        Fun::Or => truth_list(alloc, ty),
        Fun::Min => extreme_type(alloc, ty),
        Fun::Max => extreme_type(alloc, ty),
        Fun::AllDiff => any_list(alloc, ty),
        Fun::ToInt => to_int(alloc, ty),
        Fun::Defined => defined_type(alloc, ty),
        Fun::Range => range_type(alloc, ty),
        Fun::ToSet => to_set(alloc, ty),
        Fun::ToMSet => to_mset(alloc, ty),
        Fun::ToRelation => to_relation(alloc, ty),
        Fun::Parts => parts_type(alloc, ty),
        Fun::Participants => participants_type(alloc, ty),
        Fun::Image => Ok(None),
        Fun::PreImage => Ok(None),
        Fun::Freq => Ok(None),
        Fun::Party => Ok(None),
        Fun::Together => Ok(None),
    }
}

/// The type of `toInt`.
#[tactic(auto, using(crate::proofs::MemberLemmas::fit_when))]
fn to_int(alloc: Global, ty: &Ty) -> Result<Option<Boxed<Ty>>, NoMemory>
    ensures { IfOk result (λ o. option_map pure_ty o ≡ fit (pure_ty ty.now) bool_ty int_ty) }
{
    Ok(int_where(alloc, fits_bool(ty))?)
}

/// The type of a number that a list of numbers gives.
#[tactic(auto, using(crate::proofs::MemberLemmas::fit_when))]
fn number_list(alloc: Global, ty: &Ty) -> Result<Option<Boxed<Ty>>, NoMemory>
    ensures { IfOk result (λ o. option_map pure_ty o ≡ and_then (list_ty (pure_ty ty.now)) (λ e. fit e int_ty int_ty)) }
{
    match items_of(ty) {
        Some(item) => Ok(int_where(alloc, fits_int(item))?),
        None => Ok(None),
    }
}

/// The type of a truth value that a list of truth values gives.
#[tactic(auto, using(crate::proofs::MemberLemmas::fit_when))]
fn truth_list(alloc: Global, ty: &Ty) -> Result<Option<Boxed<Ty>>, NoMemory>
    ensures { IfOk result (λ o. option_map pure_ty o ≡ and_then (list_ty (pure_ty ty.now)) (λ e. fit e bool_ty bool_ty)) }
{
    match items_of(ty) {
        Some(item) => Ok(bool_where(alloc, fits_bool(item))?),
        None => Ok(None),
    }
}

/// The type of a truth value that a list gives.
fn any_list(alloc: Global, ty: &Ty) -> Result<Option<Boxed<Ty>>, NoMemory>
    ensures { IfOk result (λ o. option_map pure_ty o ≡ option_map (λ e. bool_ty) (list_ty (pure_ty ty.now))) }
{
    match items_of(ty) {
        Some(_) => made(alloc, Ty::Bool),
        None => Ok(None),
    }
}

/// The type of the set of a function's arguments.
fn defined_type(alloc: Global, ty: &Ty) -> Result<Option<Boxed<Ty>>, NoMemory>
    ensures { IfOk result (λ o. option_map pure_ty o ≡ type_of_word1 Word.Defined (pure_ty ty.now)) }
{
    match ty {
        Ty::Function(from, _) => set_of(alloc, copied(alloc, from.get())?),
        Ty::Any => set_of(alloc, made(alloc, Ty::Any)?),
        _ => Ok(None),
    }
}

/// The type of the set of a function's values.
fn range_type(alloc: Global, ty: &Ty) -> Result<Option<Boxed<Ty>>, NoMemory>
    ensures { IfOk result (λ o. option_map pure_ty o ≡ type_of_word1 Word.Range (pure_ty ty.now)) }
{
    match ty {
        Ty::Function(_, to) => set_of(alloc, copied(alloc, to.get())?),
        Ty::Any => set_of(alloc, made(alloc, Ty::Any)?),
        _ => Ok(None),
    }
}

/// The type of `toSet`.
fn to_set(alloc: Global, ty: &Ty) -> Result<Option<Boxed<Ty>>, NoMemory>
    ensures { IfOk result (λ o. option_map pure_ty o ≡ to_set_ty (pure_ty ty.now)) }
{
    set_of(alloc, set_member(alloc, ty)?)
}

/// The type of the members of the set that `toSet` gives.
fn set_member(alloc: Global, ty: &Ty) -> Result<Option<Boxed<Ty>>, NoMemory>
    ensures { IfOk result (λ o. option_map (compound1 a_set) (option_map pure_ty o) ≡ to_set_ty (pure_ty ty.now)) }
{
    match ty {
        Ty::Set(_) => Ok(None),
        Ty::Partition(_) => Ok(None),
        _ => member_type(alloc, ty),
    }
}

/// The type of `toMSet`.
fn to_mset(alloc: Global, ty: &Ty) -> Result<Option<Boxed<Ty>>, NoMemory>
    ensures { IfOk result (λ o. option_map pure_ty o ≡ to_mset_ty (pure_ty ty.now)) }
{
    match ty {
        Ty::Set(member) => mset_of(alloc, copied(alloc, member.get())?),
        Ty::Matrix(_, item) => mset_of(alloc, copied(alloc, item.get())?),
        Ty::Any => mset_of(alloc, made(alloc, Ty::Any)?),
        _ => Ok(None),
    }
}

/// The type of the relation of a function's pairs.
fn to_relation(alloc: Global, ty: &Ty) -> Result<Option<Boxed<Ty>>, NoMemory>
    ensures { IfOk result (λ o. option_map pure_ty o ≡ type_of_word1 Word.ToRelation (pure_ty ty.now)) }
{
    match ty {
        Ty::Function(from, to) => relation_of(alloc, Some(pair_row(alloc, from.get(), to.get())?)),
        Ty::Any => relation_of(alloc, Some(Row::new(alloc))),
        _ => Ok(None),
    }
}

/// The type of the set of a partition's parts.
fn parts_type(alloc: Global, ty: &Ty) -> Result<Option<Boxed<Ty>>, NoMemory>
    ensures { IfOk result (λ o. option_map pure_ty o ≡ type_of_word1 Word.Parts (pure_ty ty.now)) }
{
    match ty {
        Ty::Partition(member) => set_of(alloc, set_of(alloc, copied(alloc, member.get())?)?),
        Ty::Any => set_of(alloc, set_of(alloc, made(alloc, Ty::Any)?)?),
        _ => Ok(None),
    }
}

/// The type of the set of the members of a partition's parts.
fn participants_type(alloc: Global, ty: &Ty) -> Result<Option<Boxed<Ty>>, NoMemory>
    ensures { IfOk result (λ o. option_map pure_ty o ≡ type_of_word1 Word.Participants (pure_ty ty.now)) }
{
    match ty {
        Ty::Partition(member) => set_of(alloc, copied(alloc, member.get())?),
        Ty::Any => set_of(alloc, made(alloc, Ty::Any)?),
        _ => Ok(None),
    }
}

/// The type of a function word on two operands.
fn type_of_word_on_two(
    alloc: Global,
    fun: Fun,
    a: &Ty,
    b: &Ty,
) -> Result<Option<Boxed<Ty>>, NoMemory>
    ensures { IfOk result (λ o. option_map pure_ty o ≡ type_of_word2 fun (pure_ty a.now) (pure_ty b.now)) }
{
    match fun {
        Fun::Image => image_type(alloc, a, b),
        Fun::PreImage => preimage_type(alloc, a, b),
        Fun::Freq => freq_type(alloc, a, b),
        Fun::Party => party_type(alloc, a, b),
        Fun::Together => together_type(alloc, a, b),
        _ => Ok(None),
    }
}

/// The type of a function's value at an argument.
#[tactic(auto, using(crate::proofs::WordLemmas::image_at))]
fn image_type(alloc: Global, function: &Ty, argument: &Ty) -> Result<Option<Boxed<Ty>>, NoMemory>
    ensures { IfOk result (λ o. option_map pure_ty o ≡ type_of_word2 Word.Image (pure_ty function.now) (pure_ty argument.now)) }
{
    match function {
        Ty::Function(from, to) => Ok(copied_where(alloc, agree(from.get(), argument), to.get())?),
        Ty::Any => Ok(made(alloc, Ty::Any)?),
        _ => Ok(None),
    }
}

/// The type of the set of the arguments at which a function has a value.
#[tactic(auto, using(crate::proofs::WordLemmas::preimage_at))]
fn preimage_type(alloc: Global, function: &Ty, value: &Ty) -> Result<Option<Boxed<Ty>>, NoMemory>
    ensures { IfOk result (λ o. option_map pure_ty o ≡ type_of_word2 Word.PreImage (pure_ty function.now) (pure_ty value.now)) }
{
    match function {
        Ty::Function(from, to) => {
            Ok(set_of(
                alloc,
                copied_where(alloc, agree(to.get(), value), from.get())?,
            )?)
        }
        Ty::Any => Ok(set_of(alloc, made(alloc, Ty::Any)?)?),
        _ => Ok(None),
    }
}

/// The type of how often a value occurs in a multiset.
#[tactic(auto, using(crate::proofs::WordLemmas::freq_of))]
fn freq_type(alloc: Global, mset: &Ty, value: &Ty) -> Result<Option<Boxed<Ty>>, NoMemory>
    ensures { IfOk result (λ o. option_map pure_ty o ≡ type_of_word2 Word.Freq (pure_ty mset.now) (pure_ty value.now)) }
{
    match mset {
        Ty::MSet(member) => Ok(int_where(alloc, agree(member.get(), value))?),
        Ty::Any => Ok(made(alloc, Ty::Int)?),
        _ => Ok(None),
    }
}

/// The type of the part of a partition in which a value stands.
#[tactic(auto, using(crate::proofs::WordLemmas::party_of))]
fn party_type(alloc: Global, value: &Ty, partition: &Ty) -> Result<Option<Boxed<Ty>>, NoMemory>
    ensures { IfOk result (λ o. option_map pure_ty o ≡ type_of_word2 Word.Party (pure_ty value.now) (pure_ty partition.now)) }
{
    match partition {
        Ty::Partition(member) => Ok(set_of(alloc, join(alloc, member.get(), value)?)?),
        Ty::Any => Ok(set_of(alloc, copied(alloc, value)?)?),
        _ => Ok(None),
    }
}

/// The type of whether some part of a partition holds every member of a set.
#[tactic(auto, using(crate::proofs::WordLemmas::together_of, crate::proofs::WordLemmas::together_any, crate::proofs::MemberLemmas::fit_when))]
fn together_type(alloc: Global, set: &Ty, partition: &Ty) -> Result<Option<Boxed<Ty>>, NoMemory>
    ensures { IfOk result (λ o. option_map pure_ty o ≡ type_of_word2 Word.Together (pure_ty set.now) (pure_ty partition.now)) }
{
    match set {
        Ty::Set(member) => Ok(bool_where(alloc, is_partition_of(partition, member.get()))?),
        Ty::Any => Ok(bool_where(alloc, is_partition_of(partition, set))?),
        _ => Ok(None),
    }
}

/// Whether the type agrees with that of partitions of members of another.
#[tactic(auto, using(crate::proofs::WordLemmas::partitions_fit))]
fn is_partition_of(ty: &Ty, member: &Ty) -> bool
    ensures { result ≡ is_some (join_of (pure_ty ty.now) (compound1 a_partition (pure_ty member.now))) }
{
    match ty {
        Ty::Partition(other) => agree(other.get(), member),
        Ty::Any => true,
        _ => false,
    }
}
