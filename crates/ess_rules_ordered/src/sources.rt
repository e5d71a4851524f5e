//! Terms by their indices, where the order of their items counts.
ghost use Rattle.std.specs.Prelude.{◌≡◌, option_map, IfOk};
ghost use Rattle.std.specs.Option.{option_copied};
ghost use Rattle.ess_semantics.specs.Trees.{name_ex};
ghost use Rattle.ess_core.specs.TypeViews.{pure_ty};
ghost use Rattle.ess_core_nodes.specs.NodeViews.{pure_node, pure_nodes, pure_dom};
ghost use Rattle.ess_node_types.specs.TypedNames.{pure_names};
ghost use Rattle.ess_rules_laws.specs.MatrixRules.{item_of};
ghost use Rattle.ess_ordered_laws.specs.IndexedSources.{has_open_index as index_open, is_by_index as by_index, items_at as at_indices, indexed_term as term_indexed};
ghost use Rattle.ess_rules_ordered.specs.IndexForms.{is_written as written, open_at, item_of_matrix};

use crate::axes::{picked_axis, told_axis};
use ess_core::Ty;
use ess_core_nodes::{Node, NodeDom, Op, Step};
use ess_node_building::{comprehension, name, over, two};
use ess_node_types::{NameTypes, type_of};
use ess_rows::{Boxed, NoMemory, Row, Text};
use ess_rules_everywhere::has_cells;
use ess_rules_forms::{is_truth, seen_type};
use std::alloc::Global;

/// The term by its indices, each of which has the name. Nothing where it isn't such a term, or nothing tells its index domain; `NoMemory`
/// where there is no room for it.
#[tactic(auto, using(crate::proofs::IndexedForms::by_type))]
pub(crate) fn indexed_term(
    alloc: Global,
    types: &NameTypes,
    one: &Text,
    term: &Node,
) -> Result<Option<Boxed<Node>>, NoMemory>
    ensures { IfOk result (λ o. option_map pure_node o ≡ term_indexed (pure_names types.now) one.now (pure_node term.now)) }
{
    if !is_by_index(alloc, term)? {
        return Ok(None);
    }
    let axis = told_axis(alloc, term)?;
    let Some(axis) = axis else {
        return Ok(None);
    };
    let ty = type_of(alloc, term, types)?;
    match item_type(seen_type(&ty)) {
        Some(item) => Ok(Some(items_at(alloc, one, axis, term, item)?)),
        None => Ok(None),
    }
}

/// The items of a term at its indices, each of which has the name.
fn items_at(
    alloc: Global,
    one: &Text,
    axis: Boxed<NodeDom>,
    term: &Node,
    ty: &Ty,
) -> Result<Boxed<Node>, NoMemory>
    ensures { IfOk result (λ n. pure_node n ≡ at_indices one.now (pure_dom axis) (pure_node term.now) (pure_ty ty.now)) }
{
    let bound = over(alloc, one, axis)?;
    let mut gens = Row::new(alloc);
    gens.push(bound)?;
    let item = item_at(alloc, ty, term, one)?;
    comprehension(alloc, item, gens)
}

/// The item of a matrix, which is of this type, at the index of this name.
pub fn item_at(alloc: Global, ty: &Ty, matrix: &Node, index: &Text) -> Result<Boxed<Node>, NoMemory>
    ensures { IfOk result (λ n. pure_node n ≡ item_of (pure_ty ty.now) (pure_node matrix.now) (name_ex index.now)) }
{
    let matrix = matrix.copy(alloc)?;
    let operands = two(alloc, matrix, name(alloc, index)?)?;
    let mut steps = Row::new(alloc);
    steps.push(Step::Value)?;
    Boxed::new(alloc, Node::Op(is_truth(ty), Op::Index(steps), operands))
}

/// The type of the items of a matrix.
pub fn item_type(ty: Option<&Ty>) -> Option<&Ty>
    ensures { option_map pure_ty (option_copied result) ≡ item_of_matrix (option_map pure_ty (option_copied ty.entry)) }
{
    match ty {
        Some(Ty::Matrix(_, item)) => Some(item.get()),
        _ => None,
    }
}

/// Whether the term is a literal, an item of a matrix that cells pick, or a list that is picked and whose index domain is told.
#[tactic(auto, using(crate::proofs::IndexedForms::index_by_form))]
fn is_by_index(alloc: Global, node: &Node) -> Result<bool, NoMemory>
    ensures { IfOk result (λ b. b ≡ by_index (pure_node node.now)) }
{
    if is_written(node) || has_open_index(node) {
        return Ok(true);
    }
    let axis = picked_axis(alloc, node)?;
    Ok(axis.is_some())
}

/// Whether the term is a literal.
#[tactic(auto, using(ess_core_nodes::proofs::NodeEquations::pure_seen_is))]
fn is_written(node: &Node) -> bool
    ensures { result ≡ written (pure_node node.now) }
{
    match node {
        Node::Op(false, Op::Matrix, _) => true,
        Node::MatrixOn(_, _) => true,
        _ => false,
    }
}

/// Whether an item of a matrix is picked by what reads cells.
#[cycle(opens)]
#[tactic(auto, using(ess_core_nodes::proofs::NodeEquations::pure_seen_is, crate::proofs::IndexedForms::open_by_steps))]
fn has_open_index(node: &Node) -> bool
    ensures { result ≡ index_open (pure_node node.now) }
{
    match node {
        Node::Op(_, Op::Index(steps), operands) => match steps.as_slice().split_first() {
            Some((Step::Value, rest)) => match rest.split_first() {
                None => is_open_at(operands.as_slice()),
                Some(_) => false,
            },
            _ => false,
        },
        _ => false,
    }
}

/// The same of a matrix and an index.
#[cycle(opens)]
fn is_open_at(operands: &[Node]) -> bool
    ensures { result ≡ open_at (pure_nodes operands.now) }
{
    match operands.split_first() {
        None => false,
        Some((matrix, rest)) => match rest.split_first() {
            None => false,
            Some((at, more)) => match more.split_first() {
                Some(_) => false,
                None => has_cells(at) || has_open_index(matrix),
            },
        },
    }
}
