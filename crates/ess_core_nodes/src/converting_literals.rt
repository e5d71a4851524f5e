//! Indices, and literals of pairs and fields, as nodes.
ghost use Rattle.std.specs.Prelude.{◌≡◌, ◌++◌, [], ◌∷◌, false, IfOk, OnOk, map};
ghost use Rattle.ess_semantics.specs.Names.{keys};
ghost use Rattle.ess_semantics.specs.Trees.{node_ex, matrix_ex, index, record_literal, more_exs};
ghost use Rattle.ess_core.specs.TreeViews.{pure_ex, pure_step as pure_code_step, pure_pair_ex, pure_field_ex, words_of, within, field_values};
ghost use Rattle.ess_core_nodes.specs.NodeViews.{pure_node, pure_nodes, pure_dom, pure_step};

use crate::converting::node_of;
use crate::nodes::{Node, NodeDom};
use crate::words::{Op, Step};
use ess_core::{FieldEx, PairEx, Step as PathStep};
use ess_rows::{Boxed, NoMemory, Row};
use std::alloc::Global;

/// The steps of an index, and the values of those that are by a value.
#[cycle(convert)]
pub(crate) fn steps_of(
    alloc: Global,
    steps: &[PathStep],
) -> Result<(Row<Step>, Row<Node>), NoMemory>
    ensures path { IfOk result (λ r. map pure_step r.0 ≡ words_of (map pure_code_step steps.now)) }
    ensures values { IfOk result (λ r. map pure_node r.1 ≡ within (map pure_code_step steps.now)) }
{
    let mut path = Row::with_capacity(alloc, steps.len())?;
    let mut values = Row::new(alloc);
    for step in steps {
        add_step(alloc, step, &mut path, &mut values)?;
    }
    Ok((path, values))
}

/// An index behind what is indexed, by the values of its steps.
pub(crate) fn path_node(
    alloc: Global,
    mark: bool,
    place: Boxed<Node>,
    path: Row<Step>,
    mut values: Row<Node>,
) -> Result<Boxed<Node>, NoMemory>
    ensures { IfOk result (λ n. pure_node n ≡ node_ex mark (index (map pure_step path)) (more_exs (pure_node place) (pure_nodes values))) }
{
    values.insert(0, place.into_inner())?;
    Boxed::new(alloc, Node::Op(mark, Op::Index(path), values))
}

/// Puts one step and its value behind others.
#[cycle(convert)]
#[tactic(auto, using(ess_core::proofs::PartEquations::pure_step_value, ess_core::proofs::PartEquations::pure_step_component, ess_core::proofs::PartEquations::pure_step_field))]
fn add_step(
    alloc: Global,
    step: &PathStep,
    path: &mut Row<Step>,
    values: &mut Row<Node>,
) -> Result<(), NoMemory>
    ensures path { OnOk result (map pure_step path.new ≡ map pure_step path.old ++ (pure_code_step step.now).0 ∷ []) }
    ensures values { OnOk result (map pure_node values.new ≡ map pure_node values.old ++ (pure_code_step step.now).1) }
{
    match step {
        PathStep::Value(ex) => {
            let node = node_of(alloc, ex)?;
            values.push(node.into_inner())?;
            path.push(Step::Value)
        }
        PathStep::Component(number) => path.push(Step::Component(*number)),
        PathStep::Field(name) => {
            let name = name.copy(alloc)?;
            path.push(Step::Field(name))
        }
    }
}

/// The pairs of a function literal, as tuples.
#[cycle(convert)]
pub(crate) fn pair_nodes(alloc: Global, pairs: &[PairEx]) -> Result<Row<Node>, NoMemory>
    ensures { IfOk result (λ ns. map pure_node ns ≡ map pure_pair_ex pairs.now) }
{
    let mut nodes = Row::with_capacity(alloc, pairs.len())?;
    for pair in pairs {
        let node = pair_node(alloc, pair)?;
        nodes.push(node.into_inner())?;
    }
    Ok(nodes)
}

/// A pair of a function literal.
#[cycle(convert)]
#[tactic(auto, using(ess_core::proofs::PartEquations::pure_pair_ex_is))]
fn pair_node(alloc: Global, pair: &PairEx) -> Result<Boxed<Node>, NoMemory>
    ensures { IfOk result (λ n. pure_node n ≡ pure_pair_ex pair.now) }
{
    let from = node_of(alloc, &pair.from)?;
    let to = node_of(alloc, &pair.to)?;
    let mut parts = Row::new(alloc);
    parts.push(from.into_inner())?;
    parts.push(to.into_inner())?;
    Boxed::new(alloc, Node::Op(false, Op::Tuple, parts))
}

/// The values of the fields of a record literal.
#[cycle(convert)]
#[tactic(auto, using(ess_core::proofs::PartEquations::pure_field_ex_is))]
pub(crate) fn field_nodes(alloc: Global, fields: &[FieldEx]) -> Result<Row<Node>, NoMemory>
    ensures { IfOk result (λ ns. map pure_node ns ≡ field_values (map pure_field_ex fields.now)) }
{
    let mut nodes = Row::with_capacity(alloc, fields.len())?;
    for field in fields {
        let node = node_of(alloc, &field.ex)?;
        nodes.push(node.into_inner())?;
    }
    Ok(nodes)
}

/// A record literal of these values.
pub(crate) fn record_node(
    alloc: Global,
    fields: &[FieldEx],
    values: Row<Node>,
) -> Result<Boxed<Node>, NoMemory>
    ensures { IfOk result (λ n. pure_node n
        ≡ node_ex false (record_literal (keys (map pure_field_ex fields.now))) (pure_nodes values)) }
{
    let names = field_names(alloc, fields)?;
    Boxed::new(alloc, Node::Op(false, Op::Record(names), values))
}

/// The names of fields.
#[tactic(auto, using(ess_core::proofs::PartEquations::pure_field_ex_is))]
fn field_names(alloc: Global, fields: &[FieldEx]) -> Result<Row<ess_rows::Text>, NoMemory>
    ensures { IfOk result (λ ns. ns ≡ keys (map pure_field_ex fields.now)) }
{
    let mut names = Row::with_capacity(alloc, fields.len())?;
    for field in fields {
        let name = field.name.copy(alloc)?;
        names.push(name)?;
    }
    Ok(names)
}

/// A matrix literal over an index domain.
pub(crate) fn matrix_node(
    alloc: Global,
    items: Row<Node>,
    axis: Boxed<NodeDom>,
) -> Result<Boxed<Node>, NoMemory>
    ensures { IfOk result (λ n. pure_node n ≡ matrix_ex (pure_nodes items) (pure_dom axis)) }
{
    Boxed::new(alloc, Node::MatrixOn(items, axis))
}
