//! Lookups of what is picked out of a term: of a component or a field of a looked up tuple or record, and of the item of a matrix.
ghost use Rattle.std.specs.Prelude.{◌≡◌, IfOk, map, option_map};
ghost use Rattle.std.specs.Option.{option_copied};
ghost use Rattle.ess_semantics.specs.Lists.{only_of};
ghost use Rattle.ess_core.specs.TypeViews.{pure_ty};
ghost use Rattle.ess_core_nodes.specs.NodeViews.{pure_node, pure_nodes, pure_dom, pure_step};
ghost use Rattle.ess_node_types.specs.TypedNames.{pure_names};
ghost use Rattle.ess_rules_laws.specs.PartLookups.{component_type_of, field_type_of, item_type_of, fits_place, part_lookup, matrix_lookup};
ghost use Rattle.ess_rules_views.specs.Picked.{stepped, part_fits, part_where, part_behind, item_where, item_behind};

use ess_core::{Op2, Ty};
use ess_core_nodes::{Node, NodeDom, Op, Step};
use ess_node_building::{binary, comprehension, condition, from, name, only, over, two};
use ess_node_types::{NameTypes, type_of};
use ess_rows::{Boxed, NoMemory, Row, Text};
use ess_rules_forms::{is_truth, only_in, pair_in, seen_type};
use ess_types_operators::{component_type, field_type};
use std::alloc::Global;

/// The only step.
fn only_step(steps: &[Step]) -> Option<&Step>
    ensures { option_map (λ s. pure_step s.now) result ≡ only_of (map pure_step steps.now) }
{
    match steps.split_first() {
        None => None,
        Some((step, rest)) => match rest.split_first() {
            None => Some(step),
            Some(_) => None,
        },
    }
}

/// An index of one step: whether it is Boolean, the step, and the operands.
#[tactic(auto, using(ess_core_nodes::proofs::NodeEquations::pure_seen_is, crate::proofs::PickedParts::stepped_of_only))]
fn stepped(node: &Node) -> Option<(bool, (&Step, &[Node]))>
    ensures { option_map (λ p. (p.0, (pure_step p.1.0.now, pure_nodes p.1.1.now))) result ≡ stepped (pure_node node.now) }
{
    match node {
        Node::Op(mark, Op::Index(steps), operands) => match only_step(steps.as_slice()) {
            Some(step) => Some((*mark, (step, operands.as_slice()))),
            None => None,
        },
        _ => None,
    }
}

/// Whether there is a type, that of truth values where the place is Boolean.
fn fits_place(mark: bool, ty: Option<&Ty>) -> bool
    ensures { result ≡ fits_place mark (option_map pure_ty (option_copied ty.entry)) }
{
    match ty {
        Some(ty) => !mark || is_truth(ty),
        None => false,
    }
}

/// The lookup of `t[k]` and of `t[a]`, a component or a field, through a lookup of the tuple or record t: `[x[k] | x <- lookup]`, with the
/// name for x. Nothing for another root or other types; `NoMemory` where there is no room for it.
#[tactic(auto, using(crate::proofs::PickedParts::part_by_step))]
pub fn part_lookup(
    alloc: Global,
    names: &NameTypes,
    one: &Text,
    lookup: &Node,
    node: &Node,
) -> Result<Option<Boxed<Node>>, NoMemory>
    ensures { IfOk result (λ o. option_map pure_node o ≡
        part_lookup (pure_names names.now) one.now (pure_node lookup.now) (pure_node node.now)) }
{
    match stepped(node) {
        Some((mark, (step, operands))) => match only_in(operands) {
            Some(place) => {
                let ty = type_of(alloc, place, names)?;
                part_where(alloc, seen_type(&ty), mark, step, one, lookup)
            }
            None => Ok(None),
        },
        None => Ok(None),
    }
}

/// The same by a step into a place of this type.
fn part_where(
    alloc: Global,
    ty: Option<&Ty>,
    mark: bool,
    step: &Step,
    one: &Text,
    lookup: &Node,
) -> Result<Option<Boxed<Node>>, NoMemory>
    ensures { IfOk result (λ o. option_map pure_node o ≡ part_where (option_map pure_ty (option_copied ty.entry)) mark (pure_step step.now)
        one.now (pure_node lookup.now)) }
{
    if part_fits(alloc, ty, mark, step)? {
        Ok(Some(part_behind(alloc, mark, step, one, lookup)?))
    } else {
        Ok(None)
    }
}

/// Whether the type has the component or field to which the step goes, and that fits the place.
fn part_fits(alloc: Global, ty: Option<&Ty>, mark: bool, step: &Step) -> Result<bool, NoMemory>
    ensures { IfOk result (λ t. t ≡ part_fits (option_map pure_ty (option_copied ty.entry)) mark (pure_step step.now)) }
{
    match step {
        Step::Value => Ok(false),
        Step::Component(number) => component_fits(alloc, ty, mark, *number),
        Step::Field(field) => field_fits(alloc, ty, mark, field),
    }
}

/// Whether the type has the component of this number, and that fits the place.
#[tactic(auto, using(crate::proofs::PickedParts::component_typed))]
fn component_fits(alloc: Global, ty: Option<&Ty>, mark: bool, number: u64) -> Result<bool, NoMemory>
    ensures { IfOk result (λ t. t ≡ fits_place mark (component_type_of (option_map pure_ty (option_copied ty.entry)) number)) }
{
    match ty {
        Some(ty) => {
            let part = component_type(alloc, ty, number)?;
            Ok(fits_place(mark, seen_type(&part)))
        }
        None => Ok(fits_place(mark, None)),
    }
}

/// Whether the type has the field of this name, and that fits the place.
#[tactic(auto, using(crate::proofs::PickedParts::field_typed))]
fn field_fits(alloc: Global, ty: Option<&Ty>, mark: bool, field: &Text) -> Result<bool, NoMemory>
    ensures { IfOk result (λ t. t ≡ fits_place mark (field_type_of (option_map pure_ty (option_copied ty.entry)) field.now)) }
{
    match ty {
        Some(ty) => {
            let part = field_type(alloc, ty, field)?;
            Ok(fits_place(mark, seen_type(&part)))
        }
        None => Ok(fits_place(mark, None)),
    }
}

/// The step from what a lookup gives: `[x[q] | x <- lookup]`.
fn part_behind(
    alloc: Global,
    mark: bool,
    step: &Step,
    one: &Text,
    lookup: &Node,
) -> Result<Boxed<Node>, NoMemory>
    ensures { IfOk result (λ n. pure_node n ≡ part_behind mark (pure_step step.now) one.now (pure_node lookup.now)) }
{
    let operands = only(alloc, name(alloc, one)?)?;
    let mut steps = Row::new(alloc);
    steps.push(step.copy(alloc)?)?;
    let body = Boxed::new(alloc, Node::Op(mark, Op::Index(steps), operands))?;
    let source = lookup.copy(alloc)?;
    let mut gens = Row::new(alloc);
    gens.push(from(alloc, one, source)?)?;
    comprehension(alloc, body, gens)
}

/// The lookup of `m[i]`: `[m[x] | x : axis, x = i]`, where the axis is the index domain of m, with the name for x. Nothing for another
/// root or other types; `NoMemory` where there is no room for it.
#[tactic(auto, using(crate::proofs::PickedParts::item_by_step))]
pub fn matrix_lookup(
    alloc: Global,
    names: &NameTypes,
    one: &Text,
    axis: &NodeDom,
    node: &Node,
) -> Result<Option<Boxed<Node>>, NoMemory>
    ensures { IfOk result (λ o. option_map pure_node o ≡
        matrix_lookup (pure_names names.now) one.now (pure_dom axis.now) (pure_node node.now)) }
{
    match stepped(node) {
        Some((mark, (Step::Value, operands))) => match pair_in(operands) {
            Some((matrix, index)) => {
                let ty = type_of(alloc, matrix, names)?;
                item_where(alloc, seen_type(&ty), mark, one, axis, matrix, index)
            }
            None => Ok(None),
        },
        _ => Ok(None),
    }
}

/// The same of a matrix of this type.
fn item_where(
    alloc: Global,
    ty: Option<&Ty>,
    mark: bool,
    one: &Text,
    axis: &NodeDom,
    matrix: &Node,
    index: &Node,
) -> Result<Option<Boxed<Node>>, NoMemory>
    ensures { IfOk result (λ o. option_map pure_node o ≡ item_where (option_map pure_ty (option_copied ty.entry)) mark one.now
        (pure_dom axis.now) (pure_node matrix.now) (pure_node index.now)) }
{
    if fits_place(mark, item_type(ty)) {
        Ok(Some(item_behind(alloc, mark, one, axis, matrix, index)?))
    } else {
        Ok(None)
    }
}

/// The type of the items of a matrix.
fn item_type(ty: Option<&Ty>) -> Option<&Ty>
    ensures { option_map pure_ty (option_copied result) ≡ item_type_of (option_map pure_ty (option_copied ty.entry)) }
{
    match ty {
        Some(Ty::Matrix(_, item)) => Some(item.get()),
        _ => None,
    }
}

/// `[m[x] | x : axis, x = i]`.
fn item_behind(
    alloc: Global,
    mark: bool,
    one: &Text,
    axis: &NodeDom,
    matrix: &Node,
    index: &Node,
) -> Result<Boxed<Node>, NoMemory>
    ensures { IfOk result (λ n. pure_node n ≡
        item_behind mark one.now (pure_dom axis.now) (pure_node matrix.now) (pure_node index.now)) }
{
    let matrix = matrix.copy(alloc)?;
    let operands = two(alloc, matrix, name(alloc, one)?)?;
    let mut steps = Row::new(alloc);
    steps.push(Step::Value)?;
    let body = Boxed::new(alloc, Node::Op(mark, Op::Index(steps), operands))?;
    let member = name(alloc, one)?;
    let equal = binary(alloc, true, Op2::Eq, member, index.copy(alloc)?)?;
    let axis = axis.copy(alloc)?;
    let mut gens = Row::new(alloc);
    gens.push(over(alloc, one, axis)?)?;
    gens.push(condition(equal))?;
    comprehension(alloc, body, gens)
}
