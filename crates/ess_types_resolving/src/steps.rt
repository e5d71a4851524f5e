//! What a step of an index is, and the type that it reaches.
ghost use Rattle.std.specs.Prelude.{◌≡◌, [], None, option_map, IfOk};
ghost use Rattle.ess_semantics.specs.Trees.{to_component, to_field, number_ex};
ghost use Rattle.ess_semantics.specs.Typing.{a_number, a_name, static, type_behind, part_behind};
ghost use Rattle.ess_semantics.specs.Resolving.{step_at};
ghost use Rattle.ess_core.specs.TypeViews.{pure_ty};
ghost use Rattle.ess_core.specs.TreeViews.{pure_ex, pure_step};
ghost use Rattle.ess_types_operators.specs.Steps.{number_of, name_of};
ghost use Rattle.ess_types_resolving.specs.Paths.{placed, said_step};

use ess_core::{Boxed, Ex, NoMemory, Step, Text, Ty};
use ess_types_operators::{component_type, field_type, step_type};
use std::alloc::Global;

/// The type that a step by a value reaches from a place of this type, where the index has the type `ty`.
pub(crate) fn type_behind_index(
    alloc: Global,
    index: &Ex,
    place: &Option<Boxed<Ty>>,
    ty: Option<Boxed<Ty>>,
) -> Result<Option<Boxed<Ty>>, NoMemory>
    ensures { IfOk result (λ o. option_map pure_ty o
        ≡ type_behind (option_map pure_ty place.now) (static (pure_ex index.now)) (option_map pure_ty ty)) }
{
    match place {
        Some(place) => match ty {
            Some(ty) => step_type(alloc, place.get(), index, Some(ty.get())),
            None => step_type(alloc, place.get(), index, None),
        },
        None => {
            drop(ty);
            Ok(None)
        }
    }
}

/// What an index is at a place of this type: a component of a tuple or a field of a record that it says, else the index
/// itself, resolved.
#[tactic(auto, using(crate::proofs::Paths::tuple_step_at, crate::proofs::Paths::record_step_at))]
pub(crate) fn index_step(
    alloc: Global,
    index: &Ex,
    place: &Option<Boxed<Ty>>,
    resolved: Boxed<Ex>,
) -> Result<Boxed<Step>, NoMemory>
    ensures { IfOk result (λ s. pure_step s
        ≡ placed (step_at (option_map pure_ty place.now) (static (pure_ex index.now))) (pure_ex resolved)) }
{
    match place {
        Some(place) => match place.get() {
            Ty::Tuple(_) => component_said(alloc, index, resolved),
            Ty::Rec(_) => field_said(alloc, index, resolved),
            _ => value_step(alloc, resolved),
        },
        None => value_step(alloc, resolved),
    }
}

/// A step by a value.
#[tactic(auto, using(ess_core::proofs::PartEquations::pure_step_value))]
fn value_step(alloc: Global, resolved: Boxed<Ex>) -> Result<Boxed<Step>, NoMemory>
    ensures { IfOk result (λ s. pure_step s ≡ placed (said_step None) (pure_ex resolved)) }
{
    Boxed::new(alloc, Step::Value(resolved.into_inner()))
}

/// The component that an index says, else the index itself.
#[tactic(auto, using(ess_core::proofs::PartEquations::pure_step_component))]
fn component_said(alloc: Global, index: &Ex, resolved: Boxed<Ex>) -> Result<Boxed<Step>, NoMemory>
    ensures { IfOk result (λ s. pure_step s
        ≡ placed (said_step (option_map to_component (number_of (static (pure_ex index.now))))) (pure_ex resolved)) }
{
    match number_said(index) {
        Some(number) => {
            drop(resolved);
            Boxed::new(alloc, Step::Component(number))
        }
        None => value_step(alloc, resolved),
    }
}

/// The field that an index says, else the index itself.
#[tactic(auto, using(ess_core::proofs::PartEquations::pure_step_field))]
fn field_said(alloc: Global, index: &Ex, resolved: Boxed<Ex>) -> Result<Boxed<Step>, NoMemory>
    ensures { IfOk result (λ s. pure_step s
        ≡ placed (said_step (option_map to_field (name_of (static (pure_ex index.now))))) (pure_ex resolved)) }
{
    match index {
        Ex::Name(name) => {
            drop(resolved);
            let name = name.copy(alloc)?;
            Boxed::new(alloc, Step::Field(name))
        }
        _ => value_step(alloc, resolved),
    }
}

/// The number that an index says, where it is one that isn't negative.
fn number_said(index: &Ex) -> Option<u64>
    ensures { result ≡ number_of (static (pure_ex index.now)) }
{
    match index {
        Ex::Num(number) => natural(*number),
        _ => None,
    }
}

/// The number, where it isn't negative.
#[tactic(auto, using(ess_types_operators::proofs::IndexLemmas::number_says))]
fn natural(number: i64) -> Option<u64>
    ensures { result ≡ number_of (static (number_ex number)) }
{
    if number < 0 {
        return None;
    }
    Some(number as u64)
}

/// A step to a component, with the type that it reaches from a place of this type.
#[tactic(auto, using(ess_core::proofs::PartEquations::pure_step_component))]
pub(crate) fn component_step(
    alloc: Global,
    number: u64,
    place: &Option<Boxed<Ty>>,
) -> Result<(Boxed<Step>, Option<Boxed<Ty>>), NoMemory>
    ensures tree { IfOk result (λ r. pure_step r.0 ≡ (to_component number, [])) }
    ensures types { IfOk result (λ r. option_map pure_ty r.1 ≡ part_behind (option_map pure_ty place.now) (a_number number)) }
{
    let next = component_behind(alloc, number, place)?;
    let step = Boxed::new(alloc, Step::Component(number))?;
    Ok((step, next))
}

/// The type of a component.
fn component_behind(
    alloc: Global,
    number: u64,
    place: &Option<Boxed<Ty>>,
) -> Result<Option<Boxed<Ty>>, NoMemory>
    ensures { IfOk result (λ o. option_map pure_ty o ≡ part_behind (option_map pure_ty place.now) (a_number number)) }
{
    match place {
        Some(place) => component_type(alloc, place.get(), number),
        None => Ok(None),
    }
}

/// A step to a field, with the type that it reaches from a place of this type.
#[tactic(auto, using(ess_core::proofs::PartEquations::pure_step_field))]
pub(crate) fn field_step(
    alloc: Global,
    name: &Text,
    place: &Option<Boxed<Ty>>,
) -> Result<(Boxed<Step>, Option<Boxed<Ty>>), NoMemory>
    ensures tree { IfOk result (λ r. pure_step r.0 ≡ (to_field name.now, [])) }
    ensures types { IfOk result (λ r. option_map pure_ty r.1 ≡ part_behind (option_map pure_ty place.now) (a_name name.now)) }
{
    let next = field_behind(alloc, name, place)?;
    let name = name.copy(alloc)?;
    let step = Boxed::new(alloc, Step::Field(name))?;
    Ok((step, next))
}

/// The type of a field.
fn field_behind(
    alloc: Global,
    name: &Text,
    place: &Option<Boxed<Ty>>,
) -> Result<Option<Boxed<Ty>>, NoMemory>
    ensures { IfOk result (λ o. option_map pure_ty o ≡ part_behind (option_map pure_ty place.now) (a_name name.now)) }
{
    match place {
        Some(place) => field_type(alloc, place.get(), name),
        None => Ok(None),
    }
}
