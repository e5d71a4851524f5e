//! The types that the steps of an index reach.
ghost use Rattle.std.specs.Prelude.{◌≡◌, map, option_map, IfOk};
ghost use Rattle.std.specs.Option.{option_copied};
ghost use Rattle.ess_semantics.specs.Lists.{and_then, tail_of};
ghost use Rattle.ess_semantics.specs.Types.{fit, any_ty};
ghost use Rattle.ess_semantics.specs.Trees.{number_ex, index};
ghost use Rattle.ess_semantics.specs.Typing.{static, statics, step_ty, type_of_node};
ghost use Rattle.ess_core.specs.TypeViews.{pure_ty};
ghost use Rattle.ess_types_operators.specs.Steps.{number_of, name_of};
ghost use Rattle.ess_core_nodes.specs.NodeViews.{pure_node, pure_nodes, pure_step};
ghost use Rattle.ess_node_types.specs.StepsTaken.{path_from, step_at, items_behind};

use ess_core::Ty;
use ess_core_nodes::{Node, Step};
use ess_rows::{Boxed, NoMemory, Text};
use ess_types_operators::{agree, component_type, field_type};
use std::alloc::Global;

/// The type of an index, where `tys` are the types of the operands, there or not: the first operand is what is indexed, the others are
/// the values of steps.
#[tactic(auto, using(crate::proofs::StepsTaken::index_none, crate::proofs::StepsTaken::index_some))]
pub(crate) fn type_of_index(
    alloc: Global,
    steps: &[Step],
    operands: &[Node],
    tys: &[Option<Boxed<Ty>>],
) -> Result<Option<Boxed<Ty>>, NoMemory>
    ensures { IfOk result (λ o. option_map pure_ty o ≡
        type_of_node (index (map pure_step steps.now)) (statics (pure_nodes operands.now)) (map (option_map pure_ty) tys.now)) }
{
    match tys.split_first() {
        Some((Some(place), others)) => {
            Ok(type_behind(alloc, steps, place.get(), behind_first(operands), others)?)
        }
        Some((None, _)) => Ok(None),
        None => Ok(None),
    }
}

/// The nodes behind the first one.
fn behind_first<'a>(nodes: &'a [Node]) -> &'a [Node]
    ensures { result.now ≡ tail_of nodes.now }
{
    match nodes.split_first() {
        Some((_, others)) => others,
        None => nodes,
    }
}

/// The type that steps reach from a place of this type, where `values` are those of the steps that are by a value, of types `tys`.
#[tactic(auto, using(crate::proofs::StepsTaken::steps_more, crate::proofs::StepsTaken::steps_none, crate::proofs::StepsTaken::steps_end, crate::proofs::StepsTaken::values_left, crate::proofs::StepsTaken::types_left))]
fn type_behind(
    alloc: Global,
    steps: &[Step],
    place: &Ty,
    values: &[Node],
    tys: &[Option<Boxed<Ty>>],
) -> Result<Option<Boxed<Ty>>, NoMemory>
    ensures { IfOk result (λ o. option_map pure_ty o ≡ path_from (pure_ty place.now) steps.now values.now tys.now) }
{
    let mut reached = copied(alloc, place)?;
    let mut rest = values;
    let mut rest_tys = tys;
    for step in steps {
        match type_at_step(alloc, step, reached.get(), rest, rest_tys)? {
            Some(next) => reached = next,
            None => return Ok(None),
        }
        rest = values_behind(step, rest);
        rest_tys = types_behind(step, rest_tys);
    }
    if !rest.is_empty() {
        return Ok(None);
    }
    if !rest_tys.is_empty() {
        return Ok(None);
    }
    Ok(Some(reached))
}

/// The values behind a step.
fn values_behind<'a>(step: &Step, values: &'a [Node]) -> &'a [Node]
    ensures { result.now ≡ items_behind (pure_step step.now) values.now }
{
    match step {
        Step::Value => behind_first(values),
        Step::Component(_) => values,
        Step::Field(_) => values,
    }
}

/// The types of values behind a step.
fn types_behind<'a>(step: &Step, tys: &'a [Option<Boxed<Ty>>]) -> &'a [Option<Boxed<Ty>>]
    ensures { result.now ≡ items_behind (pure_step step.now) tys.now }
{
    match step {
        Step::Value => match tys.split_first() {
            Some((_, others)) => others,
            None => tys,
        },
        Step::Component(_) => tys,
        Step::Field(_) => tys,
    }
}

/// The type that one step reaches, whose value is the first of these where it is by a value.
fn type_at_step(
    alloc: Global,
    step: &Step,
    place: &Ty,
    values: &[Node],
    tys: &[Option<Boxed<Ty>>],
) -> Result<Option<Boxed<Ty>>, NoMemory>
    ensures { IfOk result (λ o. option_map pure_ty o ≡ step_at (pure_step step.now) (pure_ty place.now) values.now tys.now) }
{
    match step {
        Step::Value => match values.split_first() {
            Some((value, _)) => match tys.split_first() {
                Some((ty, _)) => step_type(alloc, place, value, ty),
                None => Ok(None),
            },
            None => Ok(None),
        },
        Step::Component(number) => component_type(alloc, place, *number),
        Step::Field(name) => field_type(alloc, place, name),
    }
}

/// The type that a step by a value reaches, where the value has the type `ty`.
#[tactic(auto, using(ess_types_operators::proofs::IndexLemmas::matrix_steps, ess_types_operators::proofs::IndexLemmas::tuple_steps, ess_types_operators::proofs::IndexLemmas::record_steps, ess_types_operators::proofs::IndexLemmas::any_steps))]
fn step_type(
    alloc: Global,
    place: &Ty,
    value: &Node,
    ty: &Option<Boxed<Ty>>,
) -> Result<Option<Boxed<Ty>>, NoMemory>
    ensures { IfOk result (λ o. option_map pure_ty o ≡ step_ty (pure_ty place.now) (static (pure_node value.now)) (option_map pure_ty ty.now)) }
{
    match place {
        Ty::Matrix(key, item) => Ok(matrix_step(alloc, key.get(), item.get(), ty)?),
        Ty::Tuple(_) => match number_said(value) {
            Some(number) => component_type(alloc, place, number),
            None => Ok(None),
        },
        Ty::Rec(_) => match name_said(value) {
            Some(name) => field_type(alloc, place, name),
            None => Ok(None),
        },
        Ty::Any => Ok(any_step(alloc, ty)?),
        _ => Ok(None),
    }
}

/// A step into a matrix with these types of the index and the items.
#[tactic(auto, using(ess_types_operators::proofs::MemberLemmas::fit_when))]
fn matrix_step(
    alloc: Global,
    key: &Ty,
    item: &Ty,
    ty: &Option<Boxed<Ty>>,
) -> Result<Option<Boxed<Ty>>, NoMemory>
    ensures { IfOk result (λ o. option_map pure_ty o ≡ and_then (option_map pure_ty ty.now) (λ t. fit (pure_ty key.now) t (pure_ty item.now))) }
{
    match ty {
        Some(ty) => {
            if agree(key, ty.get()) {
                let copy = copied(alloc, item)?;
                return Ok(Some(copy));
            }
            Ok(None)
        }
        None => Ok(None),
    }
}

/// A copy of a type.
fn copied(alloc: Global, ty: &Ty) -> Result<Boxed<Ty>, NoMemory>
    ensures { IfOk result (λ t. t ≡ ty.now) }
{
    match ty.copy(alloc) {
        Ok(copy) => Boxed::new(alloc, copy),
        Err(no) => Err(no),
    }
}

/// A step into what has the type of an empty literal's members.
fn any_step(alloc: Global, ty: &Option<Boxed<Ty>>) -> Result<Option<Boxed<Ty>>, NoMemory>
    ensures { IfOk result (λ o. option_map pure_ty o ≡ option_map (λ t. any_ty) (option_map pure_ty ty.now)) }
{
    match ty {
        Some(_) => Ok(Some(Boxed::new(alloc, Ty::Any)?)),
        None => Ok(None),
    }
}

/// The number that a value says, where it is one that isn't negative.
fn number_said(value: &Node) -> Option<u64>
    ensures { result ≡ number_of (static (pure_node value.now)) }
{
    match value {
        Node::Number(number) => natural(*number),
        _ => None,
    }
}

/// The number, where it isn't negative.
#[tactic(auto, using(ess_types_operators::proofs::IndexLemmas::number_says))]
fn natural(number: i64) -> Option<u64>
    ensures { result ≡ number_of (static (number_ex number)) }
{
    if number < 0 {
        return None;
    }
    Some(number as u64)
}

/// The name that a value says.
fn name_said<'a>(value: &'a Node) -> Option<&'a Text>
    ensures { option_copied result ≡ name_of (static (pure_node value.now)) }
{
    match value {
        Node::Name(name) => Some(name),
        _ => None,
    }
}
