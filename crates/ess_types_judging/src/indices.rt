//! What is found of an index, step by step.
ghost use Rattle.std.specs.Prelude.{◌≡◌, ◌∷◌, List, map, option_map, OnOk};
ghost use Rattle.ess_semantics.specs.Lists.{is_some_and};
ghost use Rattle.ess_semantics.specs.Trees as pure;
ghost use Rattle.ess_semantics.specs.Lettings.{is_record as is_record_ty};
ghost use Rattle.ess_core.specs.TypeViews.{pure_ty};
ghost use Rattle.ess_core.specs.TreeViews.{With, pure_ex, pure_step};
ghost use Rattle.ess_types_judging_laws.specs.Reached.{reached_first as is_reached_first, behind_value as is_behind_value};
ghost use Rattle.ess_types_judging.specs.Findings.{pure_judged};
ghost use Rattle.ess_types_judging.specs.Indexing.{pure_reached, index_on, index_end};
ghost use Rattle.ess_types_judging.specs.ScopeViews.{pure_scope};

use crate::expressions::judge;
use crate::found::{Found, at_place, both};
use crate::judged::{Judged, over_parts};
use crate::scope::Scope;
use crate::typing::{type_behind_component, type_behind_field, type_behind_value};
use ess_core::{Boxed, Ex, NoMemory, Step, Ty};
use std::alloc::Global;

/// The type that is reached, and what is found on the way.
#[derive(Drop)]
pub struct Reached {
    pub ty: Option<Boxed<Ty>>,
    pub found: Found,
}

/// Whether there is a type, and it is one of records.
fn is_record(ty: &Option<Boxed<Ty>>) -> bool
    ensures { result ≡ is_some_and (option_map pure_ty ty.now) is_record_ty }
{
    match ty {
        Some(ty) => matches_record(ty.get()),
        None => false,
    }
}

/// Whether the type is one of records.
fn matches_record(ty: &Ty) -> bool
    ensures { result ≡ is_record_ty (pure_ty ty.now) }
{
    match ty {
        Ty::Rec(_) => true,
        _ => false,
    }
}

/// Where an index begins.
pub(crate) fn reached_first(judged: Judged) -> Reached
    ensures { pure_reached result ≡ is_reached_first (pure_judged judged) }
{
    let Judged {
        ty,
        ordered: _,
        found,
    } = judged;
    Reached {
        ty,
        found: at_place(true, found),
    }
}

/// Behind a step by a value, of which `judged` is found. What names a field is no part.
pub(crate) fn behind_value(
    alloc: Global,
    ex: &Ex,
    judged: &Judged,
    reached: &mut Reached,
) -> Result<(), NoMemory>
    ensures { OnOk result (pure_reached reached.new ≡ is_behind_value (pure_ex ex.now) (pure_judged judged.now) (pure_reached reached.old)) }
{
    let ty = type_behind_value(alloc, &reached.ty, ex, &judged.ty)?;
    if !is_record(&reached.ty) {
        reached.found = both(reached.found, at_place(true, judged.found));
    }
    reached.ty = ty;
    Ok(())
}

/// Behind one step more.
#[cycle(judge)]
#[tactic(auto, using(crate::proofs::IndexLemmas::index_value, crate::proofs::IndexLemmas::index_component, crate::proofs::IndexLemmas::index_field, ess_core::proofs::PartEquations::pure_step_value, ess_core::proofs::PartEquations::pure_step_component, ess_core::proofs::PartEquations::pure_step_field))]
fn judge_step(
    alloc: Global,
    step: &Step,
    scope: &mut Scope,
    reached: &mut Reached,
) -> Result<(), NoMemory>
    ensures ok { OnOk result ((ws : List (With pure.Step)) → index_on (pure_reached reached.old) (pure_step step.now ∷ ws) (pure_scope scope.old) ≡ index_on (pure_reached reached.new) ws (pure_scope scope.old)) }
    ensures kept { OnOk result (scope.new ≡ scope.old) }
{
    match step {
        Step::Value(ex) => {
            let judged = judge(alloc, ex, scope)?;
            behind_value(alloc, ex, &judged, reached)
        }
        Step::Component(number) => {
            reached.ty = type_behind_component(alloc, &reached.ty, *number)?;
            Ok(())
        }
        Step::Field(name) => {
            reached.ty = type_behind_field(alloc, &reached.ty, name)?;
            Ok(())
        }
    }
}

/// The steps of an index, one after another.
#[cycle(judge)]
#[tactic(auto, using(crate::proofs::IndexLemmas::steps_more, crate::proofs::IndexLemmas::steps_all))]
pub(crate) fn judge_steps(
    alloc: Global,
    steps: &[Step],
    scope: &mut Scope,
    reached: &mut Reached,
) -> Result<(), NoMemory>
    ensures ok { OnOk result (index_on (pure_reached reached.old) (map pure_step steps.now) (pure_scope scope.old) ≡ index_end (pure_reached reached.new)) }
    ensures kept { OnOk result (scope.new ≡ scope.old) }
{
    for (i, step) in steps.iter().enumerate() {
        judge_step(alloc, step, scope, reached)?;
    }
    Ok(())
}

/// An index, where this is reached behind its last step.
pub(crate) fn index_judged(reached: Reached) -> Judged
    ensures { pure_judged result ≡ index_end (pure_reached reached) }
{
    let Reached { ty, found } = reached;
    over_parts(ty, true, found)
}
