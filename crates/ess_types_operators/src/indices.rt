//! The types that the steps of an index reach.
ghost use Rattle.std.specs.Prelude.{◌≡◌, None, map, option_map, IfOk};
ghost use Rattle.std.specs.Option.{option_copied};
ghost use Rattle.ess_semantics.specs.Lists.{and_then};
ghost use Rattle.ess_semantics.specs.Types.{fit, any_ty};
ghost use Rattle.ess_semantics.specs.Typing.{a_number, a_name, static, step_ty, part_ty, component_ty, number_cell_ty};
ghost use Rattle.ess_core.specs.TypeViews.{pure_ty, pure_tys, pure_field_ty};
ghost use Rattle.ess_core.specs.TreeViews.{pure_ex};
ghost use Rattle.ess_semantics.specs.Trees.{number_ex};
ghost use Rattle.ess_types_operators.specs.Steps.{number_of, name_of, field_in};

use crate::agreeing::{agree, same_name};
use crate::building::{copied, copied_where, made};
use ess_core::{Boxed, Ex, FieldTy, NoMemory, Text, Ty};
use std::alloc::Global;

/// The type that a step by a value reaches from a place of this type, where the index has the type `ty`: an item of a
/// matrix, and of a tuple or record the component or field that the index says. `NoMemory` where there is no room for it.
#[tactic(auto, using(crate::proofs::IndexLemmas::matrix_steps, crate::proofs::IndexLemmas::tuple_steps, crate::proofs::IndexLemmas::record_steps, crate::proofs::IndexLemmas::any_steps))]
pub fn step_type(
    alloc: Global,
    place: &Ty,
    index: &Ex,
    ty: Option<&Ty>,
) -> Result<Option<Boxed<Ty>>, NoMemory>
    ensures { IfOk result (λ o. option_map pure_ty o ≡ step_ty (pure_ty place.now) (static (pure_ex index.now)) (option_map pure_ty (option_copied ty.entry))) }
{
    match place {
        Ty::Matrix(key, item) => Ok(matrix_step(alloc, key.get(), item.get(), ty)?),
        Ty::Tuple(parts) => Ok(tuple_step(alloc, parts.as_slice(), index)?),
        Ty::Rec(fields) => Ok(record_step(alloc, fields.as_slice(), index)?),
        Ty::Any => Ok(any_step(alloc, ty)?),
        _ => Ok(None),
    }
}

/// A step into a matrix with these types of the index and the items.
#[tactic(auto, using(crate::proofs::MemberLemmas::fit_when))]
fn matrix_step(
    alloc: Global,
    key: &Ty,
    item: &Ty,
    ty: Option<&Ty>,
) -> Result<Option<Boxed<Ty>>, NoMemory>
    ensures { IfOk result (λ o. option_map pure_ty o ≡ and_then (option_map pure_ty (option_copied ty.entry)) (λ t. fit (pure_ty key.now) t (pure_ty item.now))) }
{
    match ty {
        Some(ty) => Ok(copied_where(alloc, agree(key, ty), item)?),
        None => Ok(None),
    }
}

/// A step into a tuple with components of these types.
fn tuple_step(alloc: Global, parts: &[Ty], index: &Ex) -> Result<Option<Boxed<Ty>>, NoMemory>
    ensures { IfOk result (λ o. option_map pure_ty o ≡ and_then (number_of (static (pure_ex index.now))) (component_ty (pure_tys parts.now))) }
{
    match number_said(index) {
        Some(number) => component(alloc, parts, number),
        None => Ok(None),
    }
}

/// A step into a record with these fields.
fn record_step(alloc: Global, fields: &[FieldTy], index: &Ex) -> Result<Option<Boxed<Ty>>, NoMemory>
    ensures { IfOk result (λ o. option_map pure_ty o ≡ and_then (name_of (static (pure_ex index.now))) (field_in (map pure_field_ty fields.now))) }
{
    match index {
        Ex::Name(name) => field(alloc, fields, name),
        _ => Ok(None),
    }
}

/// A step into what has the type of an empty literal's members.
fn any_step(alloc: Global, ty: Option<&Ty>) -> Result<Option<Boxed<Ty>>, NoMemory>
    ensures { IfOk result (λ o. option_map pure_ty o ≡ option_map (λ t. any_ty) (option_map pure_ty (option_copied ty.entry))) }
{
    match ty {
        Some(_) => made(alloc, Ty::Any),
        None => Ok(None),
    }
}

/// The number that an index says, where it is one that isn't negative.
fn number_said(index: &Ex) -> Option<u64>
    ensures { result ≡ number_of (static (pure_ex index.now)) }
{
    match index {
        Ex::Num(number) => natural(*number),
        _ => None,
    }
}

/// The number, where it isn't negative.
#[tactic(auto, using(crate::proofs::IndexLemmas::number_says))]
fn natural(number: i64) -> Option<u64>
    ensures { result ≡ number_of (static (number_ex number)) }
{
    if number < 0 {
        return None;
    }
    Some(number as u64)
}

/// The type of the component with a number, from 1.
fn component(alloc: Global, parts: &[Ty], number: u64) -> Result<Option<Boxed<Ty>>, NoMemory>
    ensures { IfOk result (λ o. option_map pure_ty o ≡ component_ty (pure_tys parts.now) number) }
{
    match nth(parts, number) {
        Some(ty) => copied(alloc, ty),
        None => Ok(None),
    }
}

/// The component with a number, from 1.
#[tactic(auto, using(crate::proofs::IndexLemmas::component_none, crate::proofs::IndexLemmas::component_there, crate::proofs::IndexLemmas::component_past))]
fn nth<'a>(parts: &'a [Ty], number: u64) -> Option<&'a Ty>
    ensures { option_map pure_ty (option_copied result) ≡ component_ty (pure_tys parts.now) number }
{
    if number == 0 {
        return None;
    }
    let at = (number - 1) as usize;
    if at >= parts.len() {
        return None;
    }
    Some(&parts[at])
}

/// The type of the field with a name.
#[tactic(auto, using(crate::proofs::IndexLemmas::field_found, crate::proofs::IndexLemmas::field_next))]
fn field(alloc: Global, fields: &[FieldTy], name: &Text) -> Result<Option<Boxed<Ty>>, NoMemory>
    ensures { IfOk result (λ o. option_map pure_ty o ≡ field_in (map pure_field_ty fields.now) name.now) }
{
    for field in fields {
        if same_name(&field.name, name) {
            return Ok(copied(alloc, &field.ty)?);
        }
    }
    Ok(None)
}

/// The type that a step to a component reaches from a place of this type, what has no values being its own component.
/// `NoMemory` where there is no room for it.
pub fn component_type(alloc: Global, place: &Ty, number: u64) -> Result<Option<Boxed<Ty>>, NoMemory>
    ensures { IfOk result (λ o. option_map pure_ty o ≡ part_ty (pure_ty place.now) (a_number number)) }
{
    match place {
        Ty::Tuple(parts) => component(alloc, parts.as_slice(), number),
        Ty::Any => made(alloc, Ty::Any),
        _ => Ok(None),
    }
}

/// The type that a step to a field reaches from a place of this type, what has no values being its own field. `NoMemory` where there
/// is no room for it.
pub fn field_type(alloc: Global, place: &Ty, name: &Text) -> Result<Option<Boxed<Ty>>, NoMemory>
    ensures { IfOk result (λ o. option_map pure_ty o ≡ part_ty (pure_ty place.now) (a_name name.now)) }
{
    match place {
        Ty::Rec(fields) => field(alloc, fields.as_slice(), name),
        Ty::Any => made(alloc, Ty::Any),
        _ => Ok(None),
    }
}

/// The type of a cell that isn't a Boolean, where its table's name has this type: the named type, else that of numbers.
/// `NoMemory` where there is no room for it.
pub fn number_cell_type(alloc: Global, ty: Option<&Ty>) -> Result<Boxed<Ty>, NoMemory>
    ensures { IfOk result (λ t. pure_ty t ≡ number_cell_ty (option_map pure_ty (option_copied ty.entry))) }
{
    match ty {
        Some(Ty::Named(name)) => Boxed::new(alloc, Ty::Named(name.copy(alloc)?)),
        _ => Boxed::new(alloc, Ty::Int),
    }
}
