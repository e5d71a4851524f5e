ghost use Rattle.std.specs.Prelude.{◌≡◌, ◌∷◌, List, map, option_map, IfOk, OnOk};
ghost use Rattle.ess_semantics.specs.Lists.{and_then};
ghost use Rattle.ess_semantics.specs.Trees.{Step as PureStep};
ghost use Rattle.ess_semantics.specs.Typing.{type_of, static, step_ty};
ghost use Rattle.ess_core.specs.TypeViews.{pure_ty};
ghost use Rattle.ess_core.specs.TreeViews.{With, pure_ex, pure_step};
ghost use Rattle.ess_types_names.specs.Tables.{pure_table};
ghost use Rattle.ess_types_names.specs.Paths.{steps_ty};

use crate::expressions::type_of;
use crate::table::TypeTable;
use ess_core::{Boxed, Ex, NoMemory, Step, Ty};
use ess_types_operators::{component_type, field_type, step_type};
use std::alloc::Global;

/// The type that steps reach from a place of this type.
#[cycle(type_of)]
#[tactic(auto, using(crate::proofs::Paths::steps_more, crate::proofs::Paths::steps_none, crate::proofs::Paths::steps_end))]
pub(crate) fn type_behind(
    alloc: Global,
    steps: &[Step],
    place: Boxed<Ty>,
    table: &mut TypeTable,
) -> Result<Option<Boxed<Ty>>, NoMemory>
    ensures ok { IfOk result (λ o. option_map pure_ty o ≡ steps_ty (pure_ty place) (map pure_step steps.now) (pure_table table.old)) }
    ensures kept { OnOk result (table.new ≡ table.old) }
{
    let mut reached = place;
    for step in steps {
        match type_behind_step(alloc, step, reached.get(), table)? {
            Some(next) => reached = next,
            None => return Ok(None),
        }
    }
    Ok(Some(reached))
}

/// The type that one step reaches.
#[cycle(type_of)]
#[tactic(auto, using(ess_core::proofs::PartEquations::pure_step_value, ess_core::proofs::PartEquations::pure_step_component, ess_core::proofs::PartEquations::pure_step_field))]
fn type_behind_step(
    alloc: Global,
    step: &Step,
    place: &Ty,
    table: &mut TypeTable,
) -> Result<Option<Boxed<Ty>>, NoMemory>
    ensures ok { IfOk result (λ o. (ws : List (With PureStep)) → steps_ty (pure_ty place.now) (pure_step step.now ∷ ws) (pure_table table.old) ≡ and_then (option_map pure_ty o) (λ v. steps_ty v ws (pure_table table.old))) }
    ensures kept { OnOk result (table.new ≡ table.old) }
{
    match step {
        Step::Value(ex) => type_behind_value(alloc, ex, place, table),
        Step::Component(number) => component_type(alloc, place, *number),
        Step::Field(name) => field_type(alloc, place, name),
    }
}

/// The type that a step by a value reaches.
#[cycle(type_of)]
fn type_behind_value(
    alloc: Global,
    ex: &Ex,
    place: &Ty,
    table: &mut TypeTable,
) -> Result<Option<Boxed<Ty>>, NoMemory>
    ensures ok { IfOk result (λ o. option_map pure_ty o ≡ step_ty (pure_ty place.now) (static (pure_ex ex.now)) (type_of (pure_ex ex.now) (pure_table table.old))) }
    ensures kept { OnOk result (table.new ≡ table.old) }
{
    match type_of(alloc, ex, table)? {
        Some(ty) => step_type(alloc, place, ex, Some(ty.get())),
        None => step_type(alloc, place, ex, None),
    }
}
