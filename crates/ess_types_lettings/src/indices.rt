//! Lettings put into the steps of an index.
ghost use Rattle.std.specs.Prelude.{◌≡◌, ◌≤◌, ◌<◌, ◌+◌, ◌∷◌, [], true, false, length, List, None, map, option_map, IfOk, OnOk};
ghost use Rattle.ess_semantics.specs.Trees.{by_value, index, node_ex, more_exs, Step as PureStep};
ghost use Rattle.ess_semantics.specs.Typing.{a_number, a_name, static, type_behind, part_behind, type_of};
ghost use Rattle.ess_semantics.specs.Lettings.{kept_or, put_ex};
ghost use Rattle.ess_core.specs.TypeViews.{pure_ty};
ghost use Rattle.ess_core.specs.TreeViews.{With, words_of, within, exs_of, pure_ex, pure_step};
ghost use Rattle.ess_types_names.specs.Tables.{pure_table};
ghost use Rattle.ess_types_scopes.specs.Kept.{pure_lettings};
ghost use Rattle.ess_types_lettings.specs.Paths.{path_behind};
ghost use Rattle.ess_types_lettings.specs.Putting.{put_values, exs_before};

use crate::expressions::put_typed;
use crate::kept::{is_kept, kept_value, value_behind};
use ess_core::{Boxed, Ex, NoMemory, Row, Step, Text, Ty};
use ess_types_names::TypeTable;
use ess_types_operators::{component_type, field_type};
use ess_types_scopes::Lettings;
use std::alloc::Global;

/// Steps of an index with lettings put in.
#[derive(Drop)]
pub(crate) struct PutSteps {
    pub steps: Row<Step>,
    /// The type that is reached behind them, where it was asked.
    pub behind: Option<Boxed<Ty>>,
}

/// A step with lettings put in, and the type that it reaches, where something follows.
#[derive(Drop)]
struct PutStep {
    step: Boxed<Step>,
    behind: Option<Boxed<Ty>>,
}

/// The index of a place by steps with lettings put in, and the type behind them.
pub(crate) fn typed_index(
    alloc: Global,
    is_bool: bool,
    place: Boxed<Ex>,
    puts: PutSteps,
) -> Result<(Boxed<Ex>, Option<Boxed<Ty>>), NoMemory>
    ensures index { IfOk result (λ r. pure_ex r.0
        ≡ node_ex is_bool (index (words_of (map pure_step puts.steps)))
        (more_exs (pure_ex place) (exs_of (within (map pure_step puts.steps))))) }
    ensures behind { IfOk result (λ r. option_map pure_ty r.1 ≡ option_map pure_ty puts.behind) }
{
    let PutSteps { steps, behind } = puts;
    let put = Boxed::new(alloc, Ex::At(is_bool, place, steps))?;
    Ok((put, behind))
}

/// The steps of an index with lettings put in, from a place of this type. The type behind the last one is found where it is
/// asked.
#[cycle(put)]
#[tactic(auto, using(crate::proofs::Steps::steps_put))]
pub(crate) fn put_steps(
    alloc: Global,
    steps: &[Step],
    place: Option<Boxed<Ty>>,
    asked: bool,
    lettings: &Lettings,
    table: &mut TypeTable,
) -> Result<PutSteps, NoMemory>
    ensures words { IfOk result (λ r. words_of (map pure_step r.steps) ≡ words_of (map pure_step steps.now)) }
    ensures operands { IfOk result (λ r. exs_of (within (map pure_step r.steps))
        ≡ put_values (option_map pure_ty place) (map pure_step steps.now) (pure_lettings lettings.now) (pure_table table.old)) }
    ensures behind { IfOk result (λ r. asked ≡ true
        → option_map pure_ty r.behind ≡ path_behind (option_map pure_ty place) (map pure_step r.steps) (pure_table table.old)) }
    ensures kept { OnOk result (table.new ≡ table.old) }
{
    let mut puts = Row::with_capacity(alloc, steps.len())?;
    let mut reached = place;
    for (i, step) in steps.iter().enumerate() {
        let further = is_followed(asked, steps, i);
        let PutStep { step: put, behind } = put_step(
            alloc, step, &reached, further, lettings, table,
        )?;
        puts.push(put.into_inner())?;
        reached = behind;
    }
    Ok(PutSteps {
        steps: puts,
        behind: reached,
    })
}

/// Whether the type behind the step at i is needed: where that behind all steps is asked, or a step follows.
fn is_followed(asked: bool, steps: &[Step], i: usize) -> bool
    requires { i < length steps.now }
    ensures last { result ≡ false → length steps.now ≤ i + 1 }
    ensures asked { asked ≡ true → result ≡ true }
{
    asked | (i + 1 < steps.len())
}

/// A step with lettings put in, and the type that it reaches, which is found where something follows (`further`).
#[cycle(put)]
#[tactic(auto, using(crate::proofs::Steps::kinds_of_steps))]
fn put_step(
    alloc: Global,
    step: &Step,
    place: &Option<Boxed<Ty>>,
    further: bool,
    lettings: &Lettings,
    table: &mut TypeTable,
) -> Result<PutStep, NoMemory>
    ensures word { IfOk result (λ r. (pure_step r.step).0 ≡ (pure_step step.now).0) }
    ensures operands { IfOk result (λ r. (ws : List (With PureStep)) → (further ≡ false → ws ≡ [])
        → put_values (option_map pure_ty place.now) (pure_step step.now ∷ ws) (pure_lettings lettings.now) (pure_table table.old)
        ≡ exs_before (pure_step r.step).1 (put_values (option_map pure_ty r.behind) ws (pure_lettings lettings.now) (pure_table table.old))) }
    ensures leads { IfOk result (λ r. further ≡ true → (ws : List (With PureStep))
        → path_behind (option_map pure_ty place.now) (pure_step r.step ∷ ws) (pure_table table.old)
        ≡ path_behind (option_map pure_ty r.behind) ws (pure_table table.old)) }
    ensures kept { OnOk result (table.new ≡ table.old) }
{
    match step {
        Step::Value(ex) => put_value(alloc, ex, place, further, lettings, table),
        Step::Component(number) => {
            let behind = component_behind(alloc, place, *number)?;
            let step = Boxed::new(alloc, Step::Component(*number))?;
            Ok(PutStep { step, behind })
        }
        Step::Field(name) => {
            let behind = field_behind(alloc, place, name)?;
            let step = Boxed::new(alloc, Step::Field(name.copy(alloc)?))?;
            Ok(PutStep { step, behind })
        }
    }
}

/// A step by a value with lettings put in. From a place that is a record or a tuple the value stays as it is.
#[cycle(put)]
fn put_value(
    alloc: Global,
    ex: &Ex,
    place: &Option<Boxed<Ty>>,
    further: bool,
    lettings: &Lettings,
    table: &mut TypeTable,
) -> Result<PutStep, NoMemory>
    ensures word { IfOk result (λ r. (pure_step r.step).0 ≡ by_value) }
    ensures operands { IfOk result (λ r. (ws : List (With PureStep)) → (further ≡ false → ws ≡ [])
        → put_values (option_map pure_ty place.now) ((by_value, pure_ex ex.now ∷ []) ∷ ws) (pure_lettings lettings.now) (pure_table table.old)
        ≡ exs_before (pure_step r.step).1 (put_values (option_map pure_ty r.behind) ws (pure_lettings lettings.now) (pure_table table.old))) }
    ensures leads { IfOk result (λ r. further ≡ true → (ws : List (With PureStep))
        → path_behind (option_map pure_ty place.now) (pure_step r.step ∷ ws) (pure_table table.old)
        ≡ path_behind (option_map pure_ty r.behind) ws (pure_table table.old)) }
    ensures kept { OnOk result (table.new ≡ table.old) }
{
    let (value, behind) = put_behind(alloc, ex, place, further, lettings, table)?;
    let step = Boxed::new(alloc, Step::Value(value.into_inner()))?;
    Ok(PutStep { step, behind })
}

/// The value of a step with lettings put in, or as it is from a place that is a record or a tuple, and the type that a step by it
/// reaches, which is found where something follows.
#[cycle(put)]
fn put_behind(
    alloc: Global,
    ex: &Ex,
    place: &Option<Boxed<Ty>>,
    further: bool,
    lettings: &Lettings,
    table: &mut TypeTable,
) -> Result<(Boxed<Ex>, Option<Boxed<Ty>>), NoMemory>
    ensures value { IfOk result (λ r. pure_ex r.0
        ≡ kept_or (option_map pure_ty place.now) (pure_ex ex.now) (put_ex (pure_ex ex.now) (pure_lettings lettings.now) (pure_table table.old))) }
    ensures behind { IfOk result (λ r. further ≡ true → option_map pure_ty r.1
        ≡ type_behind (option_map pure_ty place.now) (static (pure_ex r.0)) (type_of (pure_ex r.0) (pure_table table.old))) }
    ensures kept { OnOk result (table.new ≡ table.old) }
{
    if is_kept(place) {
        return kept_value(alloc, ex, place);
    }
    let (put, ty) = put_typed(alloc, ex, further, lettings, table)?;
    let behind = value_behind(alloc, place, put.get(), ty)?;
    Ok((put, behind))
}

/// The type that a step to a component reaches.
fn component_behind(
    alloc: Global,
    place: &Option<Boxed<Ty>>,
    number: u64,
) -> Result<Option<Boxed<Ty>>, NoMemory>
    ensures { IfOk result (λ o. option_map pure_ty o ≡ part_behind (option_map pure_ty place.now) (a_number number)) }
{
    match place {
        Some(place) => component_type(alloc, place.get(), number),
        None => Ok(None),
    }
}

/// The type that a step to a field reaches.
fn field_behind(
    alloc: Global,
    place: &Option<Boxed<Ty>>,
    name: &Text,
) -> Result<Option<Boxed<Ty>>, NoMemory>
    ensures { IfOk result (λ o. option_map pure_ty o ≡ part_behind (option_map pure_ty place.now) (a_name name.now)) }
{
    match place {
        Some(place) => field_type(alloc, place.get(), name),
        None => Ok(None),
    }
}
