//! Indices, resolved.
ghost use Rattle.std.specs.Prelude.{◌≡◌, map, option_map, IfOk, OnOk};
ghost use Rattle.ess_semantics.specs.Lists.{and_then};
ghost use Rattle.ess_semantics.specs.Typing.{static, type_of, type_behind};
ghost use Rattle.ess_semantics.specs.Resolving.{resolve, step_at};
ghost use Rattle.ess_core.specs.TypeViews.{pure_ty};
ghost use Rattle.ess_core.specs.TreeViews.{pure_ex, pure_step};
ghost use Rattle.ess_types_names.specs.Paths.{steps_ty};
ghost use Rattle.ess_types_names.specs.Tables.{pure_table};
ghost use Rattle.ess_types_resolving.specs.Paths.{placed, resolved_step, step_behind, resolved_path, path_behind, resolved_index};

use crate::expressions::resolve_typed;
use crate::nodes::index_node;
use crate::steps::{component_step, field_step, index_step, type_behind_index};
use ess_core::{Boxed, Ex, NoMemory, Row, Step, Ty};
use ess_types_names::TypeTable;
use std::alloc::Global;

/// An index of what is resolved already, resolved, with its type where its parts' types fit.
#[cycle(resolve)]
#[tactic(auto, using(crate::proofs::Paths::path_steps, crate::proofs::Paths::path_kept, crate::proofs::Paths::path_typed))]
pub(crate) fn resolve_indexed(
    alloc: Global,
    steps: &[Step],
    place: (Boxed<Ex>, Option<Boxed<Ty>>),
    table: &mut TypeTable,
) -> Result<(Boxed<Ex>, Option<Boxed<Ty>>), NoMemory>
    ensures tree { IfOk result (λ r. pure_ex r.0
        ≡ resolved_index (option_map pure_ty r.1) (option_map pure_ty place.1) (pure_ex place.0) (map pure_step steps.now)
        (pure_table table.old)) }
    ensures types { IfOk result (λ r. option_map pure_ty r.1
        ≡ and_then (option_map pure_ty place.1) (λ t. steps_ty t (map pure_step steps.now) (pure_table table.old))) }
    ensures kept { OnOk result (table.new ≡ table.old) }
{
    let (place, reached) = place;
    let (resolved, ty) = resolve_steps(alloc, steps, reached, table)?;
    index_node(alloc, place, resolved, ty)
}

/// The steps of an index from a place of this type, resolved, with the type that they reach.
#[cycle(resolve)]
#[tactic(auto, using(crate::proofs::Paths::steps_more, crate::proofs::Paths::steps_all, crate::proofs::Paths::reached_more, crate::proofs::Paths::reached_all))]
fn resolve_steps(
    alloc: Global,
    steps: &[Step],
    place: Option<Boxed<Ty>>,
    table: &mut TypeTable,
) -> Result<(Row<Step>, Option<Boxed<Ty>>), NoMemory>
    ensures trees { IfOk result (λ r. map pure_step r.0
        ≡ resolved_path (option_map pure_ty place) (map pure_step steps.now) (pure_table table.old)) }
    ensures types { IfOk result (λ r. option_map pure_ty r.1
        ≡ path_behind (option_map pure_ty place) (map pure_step steps.now) (pure_table table.old)) }
    ensures kept { OnOk result (table.new ≡ table.old) }
{
    let mut reached = place;
    let mut resolved = Row::new(alloc);
    for step in steps {
        let (item, next) = resolve_step(alloc, step, &reached, table)?;
        resolved.push(item.into_inner())?;
        reached = next;
    }
    Ok((resolved, reached))
}

/// A step of an index from a place of this type, resolved, with the type that it reaches.
#[cycle(resolve)]
#[tactic(auto, using(ess_core::proofs::PartEquations::pure_step_value, ess_core::proofs::PartEquations::pure_step_component, ess_core::proofs::PartEquations::pure_step_field))]
fn resolve_step(
    alloc: Global,
    step: &Step,
    place: &Option<Boxed<Ty>>,
    table: &mut TypeTable,
) -> Result<(Boxed<Step>, Option<Boxed<Ty>>), NoMemory>
    ensures tree { IfOk result (λ r. pure_step r.0
        ≡ resolved_step (option_map pure_ty place.now) (pure_step step.now) (pure_table table.old)) }
    ensures types { IfOk result (λ r. option_map pure_ty r.1
        ≡ step_behind (option_map pure_ty place.now) (pure_step step.now) (pure_table table.old)) }
    ensures kept { OnOk result (table.new ≡ table.old) }
{
    match step {
        Step::Value(ex) => resolve_value(alloc, ex, place, table),
        Step::Component(number) => component_step(alloc, *number, place),
        Step::Field(name) => field_step(alloc, name, place),
    }
}

/// A step by a value from a place of this type, resolved, with the type that it reaches.
#[cycle(resolve)]
fn resolve_value(
    alloc: Global,
    ex: &Ex,
    place: &Option<Boxed<Ty>>,
    table: &mut TypeTable,
) -> Result<(Boxed<Step>, Option<Boxed<Ty>>), NoMemory>
    ensures tree { IfOk result (λ r. pure_step r.0
        ≡ placed (step_at (option_map pure_ty place.now) (static (pure_ex ex.now))) (resolve (pure_ex ex.now) (pure_table table.old))) }
    ensures types { IfOk result (λ r. option_map pure_ty r.1
        ≡ type_behind (option_map pure_ty place.now) (static (pure_ex ex.now)) (type_of (pure_ex ex.now) (pure_table table.old))) }
    ensures kept { OnOk result (table.new ≡ table.old) }
{
    let (resolved, ty) = resolve_typed(alloc, ex, table)?;
    let next = type_behind_index(alloc, ex, place, ty)?;
    let step = index_step(alloc, ex, place, resolved)?;
    Ok((step, next))
}
