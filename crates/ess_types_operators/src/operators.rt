//! The types of operators on one or two operands.
ghost use Rattle.std.specs.Prelude.{◌≡◌, option_map, IfOk};
ghost use Rattle.ess_semantics.specs.Lists.{and_then, when};
ghost use Rattle.ess_semantics.specs.Types.{join as join_of, bool_ty, int_ty, fit};
ghost use Rattle.ess_semantics.specs.OperatorTypes.{sized, united, subtracted, compared, lex_compared, included, asked_ty, type_of_unary, type_of_binary};
ghost use Rattle.ess_core.specs.TypeViews.{pure_ty};

use crate::agreeing::{agree, fits_bool, fits_int};
use crate::building::{bool_where, int_where};
use crate::joining::join;
use crate::members::asked_type;
use ess_core::{Boxed, NoMemory, Op1, Op2, Ty};
use std::alloc::Global;

/// The type of an operator on an operand of this type, where it fits. `NoMemory` where there is no room for it.
#[tactic(auto, using(crate::proofs::MemberLemmas::fit_when))]
pub fn type_of_unary(alloc: Global, op: Op1, ty: &Ty) -> Result<Option<Boxed<Ty>>, NoMemory>
    ensures { IfOk result (λ o. option_map pure_ty o ≡ type_of_unary op (pure_ty ty.now)) }
{
    match op {
        Op1::Minus => Ok(int_where(alloc, fits_int(ty))?),
        Op1::Not => Ok(bool_where(alloc, fits_bool(ty))?),
        Op1::Bar => Ok(int_where(alloc, is_sized(ty))?),
    }
}

/// Whether `|x|` takes the type.
fn is_sized(ty: &Ty) -> bool
    ensures { sized (pure_ty ty.now) ≡ when result int_ty }
{
    match ty {
        Ty::Int => true,
        Ty::Any => true,
        Ty::Set(_) => true,
        Ty::MSet(_) => true,
        Ty::Function(_, _) => true,
        Ty::Relation(_) => true,
        _ => false,
    }
}

/// The type of an operator on operands of these types, where they fit. `NoMemory` where there is no room for it.
pub fn type_of_binary(alloc: Global, op: Op2, a: &Ty, b: &Ty) -> Result<Option<Boxed<Ty>>, NoMemory>
    ensures { IfOk result (λ o. option_map pure_ty o ≡ type_of_binary op (pure_ty a.now) (pure_ty b.now)) }
{
    match op {
        Op2::Intersect => united_join(alloc, a, b),
        Op2::Union => united_join(alloc, a, b),
        Op2::Minus => subtracted_join(alloc, a, b),
        Op2::Eq => fit_bool(alloc, a, b),
        Op2::Ne => fit_bool(alloc, a, b),
        Op2::Lt => compared_join(alloc, a, b),
        Op2::Le => compared_join(alloc, a, b),
        Op2::Gt => compared_join(alloc, a, b),
        Op2::Ge => compared_join(alloc, a, b),
        Op2::LexLt => lex_compared_join(alloc, a, b),
        Op2::LexLe => lex_compared_join(alloc, a, b),
        Op2::LexGt => lex_compared_join(alloc, a, b),
        Op2::LexGe => lex_compared_join(alloc, a, b),
        Op2::Member => asked_fit(alloc, a, b),
        Op2::Subset => included_join(alloc, a, b),
        Op2::SubsetEq => included_join(alloc, a, b),
        Op2::Supset => included_join(alloc, a, b),
        Op2::SupsetEq => included_join(alloc, a, b),
        Op2::And => truth_join(alloc, a, b),
        Op2::Or => truth_join(alloc, a, b),
        Op2::Implies => truth_join(alloc, a, b),
        Op2::Iff => truth_join(alloc, a, b),
        Op2::Pow => number_join(alloc, a, b),
        Op2::Times => number_join(alloc, a, b),
        Op2::Div => number_join(alloc, a, b),
        Op2::Mod => number_join(alloc, a, b),
        Op2::Plus => number_join(alloc, a, b),
    }
}

/// The type of truth values, where two types agree.
#[tactic(auto, using(crate::proofs::MemberLemmas::fit_when))]
pub fn fit_bool(alloc: Global, a: &Ty, b: &Ty) -> Result<Option<Boxed<Ty>>, NoMemory>
    ensures { IfOk result (λ o. option_map pure_ty o ≡ fit (pure_ty a.now) (pure_ty b.now) bool_ty) }
{
    Ok(bool_where(alloc, agree(a, b))?)
}

/// The type of `in`: whether the first may be a member of the second.
fn asked_fit(alloc: Global, a: &Ty, b: &Ty) -> Result<Option<Boxed<Ty>>, NoMemory>
    ensures { IfOk result (λ o. option_map pure_ty o ≡ and_then (asked_ty (pure_ty b.now)) (λ m. fit (pure_ty a.now) m bool_ty)) }
{
    match asked_type(alloc, b)? {
        Some(member) => fit_bool(alloc, a, member.get()),
        None => Ok(None),
    }
}

/// The type of two connected truth values.
#[tactic(auto, using(crate::proofs::MemberLemmas::fit_when))]
fn truth_join(alloc: Global, a: &Ty, b: &Ty) -> Result<Option<Boxed<Ty>>, NoMemory>
    ensures { IfOk result (λ o. option_map pure_ty o ≡ and_then (join_of (pure_ty a.now) (pure_ty b.now)) (λ t. fit t bool_ty bool_ty)) }
{
    match join(alloc, a, b)? {
        Some(ty) => Ok(bool_where(alloc, fits_bool(ty.get()))?),
        None => Ok(None),
    }
}

/// The type of two numbers put together.
#[tactic(auto, using(crate::proofs::MemberLemmas::fit_when))]
fn number_join(alloc: Global, a: &Ty, b: &Ty) -> Result<Option<Boxed<Ty>>, NoMemory>
    ensures { IfOk result (λ o. option_map pure_ty o ≡ and_then (join_of (pure_ty a.now) (pure_ty b.now)) (λ t. fit t int_ty int_ty)) }
{
    match join(alloc, a, b)? {
        Some(ty) => Ok(int_where(alloc, fits_int(ty.get()))?),
        None => Ok(None),
    }
}

/// The type of two values whose order is asked.
fn compared_join(alloc: Global, a: &Ty, b: &Ty) -> Result<Option<Boxed<Ty>>, NoMemory>
    ensures { IfOk result (λ o. option_map pure_ty o ≡ and_then (join_of (pure_ty a.now) (pure_ty b.now)) compared) }
{
    match join(alloc, a, b)? {
        Some(ty) => bool_where(alloc, is_compared(ty.get())),
        None => Ok(None),
    }
}

/// The type of two lists whose lexicographic order is asked.
fn lex_compared_join(alloc: Global, a: &Ty, b: &Ty) -> Result<Option<Boxed<Ty>>, NoMemory>
    ensures { IfOk result (λ o. option_map pure_ty o ≡ and_then (join_of (pure_ty a.now) (pure_ty b.now)) lex_compared) }
{
    match join(alloc, a, b)? {
        Some(ty) => bool_where(alloc, is_lex_compared(ty.get())),
        None => Ok(None),
    }
}

/// The type of two collections of which one may be in the other.
fn included_join(alloc: Global, a: &Ty, b: &Ty) -> Result<Option<Boxed<Ty>>, NoMemory>
    ensures { IfOk result (λ o. option_map pure_ty o ≡ and_then (join_of (pure_ty a.now) (pure_ty b.now)) included) }
{
    match join(alloc, a, b)? {
        Some(ty) => bool_where(alloc, is_included(ty.get())),
        None => Ok(None),
    }
}

/// The type of the union or intersection of two sets or relations.
fn united_join(alloc: Global, a: &Ty, b: &Ty) -> Result<Option<Boxed<Ty>>, NoMemory>
    ensures { IfOk result (λ o. option_map pure_ty o ≡ and_then (join_of (pure_ty a.now) (pure_ty b.now)) united) }
{
    match join(alloc, a, b)? {
        Some(ty) => {
            if is_united(ty.get()) {
                Ok(Some(ty))
            } else {
                Ok(None)
            }
        }
        None => Ok(None),
    }
}

/// The type of the difference of two numbers, sets or relations.
fn subtracted_join(alloc: Global, a: &Ty, b: &Ty) -> Result<Option<Boxed<Ty>>, NoMemory>
    ensures { IfOk result (λ o. option_map pure_ty o ≡ and_then (join_of (pure_ty a.now) (pure_ty b.now)) subtracted) }
{
    match join(alloc, a, b)? {
        Some(ty) => {
            if is_subtracted(ty.get()) {
                Ok(Some(ty))
            } else {
                Ok(None)
            }
        }
        None => Ok(None),
    }
}

/// Whether `<` compares values of the type.
fn is_compared(ty: &Ty) -> bool
    ensures { compared (pure_ty ty.now) ≡ when result bool_ty }
{
    match ty {
        Ty::Int => true,
        Ty::Bool => true,
        Ty::Named(_) => true,
        Ty::Any => true,
        _ => false,
    }
}

/// Whether the lexicographic signs compare values of the type: lists of values that `<` compares.
fn is_lex_compared(ty: &Ty) -> bool
    ensures { lex_compared (pure_ty ty.now) ≡ when result bool_ty }
{
    match ty {
        Ty::Matrix(_, item) => is_compared(item.get()),
        Ty::Any => true,
        _ => false,
    }
}

/// Whether the signs of inclusion compare values of the type.
fn is_included(ty: &Ty) -> bool
    ensures { included (pure_ty ty.now) ≡ when result bool_ty }
{
    match ty {
        Ty::Set(_) => true,
        Ty::MSet(_) => true,
        Ty::Relation(_) => true,
        Ty::Any => true,
        _ => false,
    }
}

/// Whether the type is one of sets or relations.
fn is_united(ty: &Ty) -> bool
    ensures { united (pure_ty ty.now) ≡ when result (pure_ty ty.now) }
{
    match ty {
        Ty::Any => true,
        Ty::Set(_) => true,
        Ty::Relation(_) => true,
        _ => false,
    }
}

/// Whether `-` takes the type.
fn is_subtracted(ty: &Ty) -> bool
    ensures { subtracted (pure_ty ty.now) ≡ when result (pure_ty ty.now) }
{
    match ty {
        Ty::Int => true,
        Ty::Any => true,
        Ty::Set(_) => true,
        Ty::Relation(_) => true,
        _ => false,
    }
}
