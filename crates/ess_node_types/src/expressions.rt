//! The type of an expression under the types of the names in it.
ghost use Rattle.std.specs.Prelude.{◌≡◌, Some, if◌then◌else◌, map, option_map, IfOk};
ghost use Rattle.ess_semantics.specs.Lists.{and_then, all_some};
ghost use Rattle.ess_semantics.specs.Values.{a_matrix};
ghost use Rattle.ess_semantics.specs.Names.{look};
ghost use Rattle.ess_semantics.specs.Types.{bool_ty, int_ty, compound2, join_all as join_of_all, type_of_dom as members_of};
ghost use Rattle.ess_semantics.specs.Typing.{type_of, types_of, type_of_node, statics, number_cell_ty};
ghost use Rattle.ess_core.specs.TypeViews.{pure_ty};
ghost use Rattle.ess_core_nodes.specs.NodeViews.{pure_node, pure_nodes, pure_dom, pure_op};
ghost use Rattle.ess_node_types.specs.TypedNames.{pure_names};

use crate::domains::type_of_dom;
use crate::generators::types_under;
use crate::indices::type_of_index;
use crate::names::NameTypes;
use crate::operators::type_of_op;
use ess_core::Ty;
use ess_core_nodes::{Node, NodeDom, Op};
use ess_rows::{Boxed, NoMemory, Row, Text};
use ess_types_operators::{join_all, number_cell_type, type_of_comprehension};
use std::alloc::Global;

/// The type of an expression under the types of names, where its parts' types fit. `NoMemory` where there is no room for it, and
/// where a record's domain hasn't as many names as domains.
#[cycle(type_of)]
#[tactic(auto, using(ess_core_nodes::proofs::NodeEquations::pure_seen_is, crate::proofs::OperatorNodes::comp_none, crate::proofs::OperatorNodes::comp_some))]
pub fn type_of(alloc: Global, node: &Node, names: &NameTypes) -> Result<Option<Boxed<Ty>>, NoMemory>
    ensures { IfOk result (λ o. option_map pure_ty o ≡ type_of (pure_node node.now) (pure_names names.now)) }
{
    match node {
        Node::Number(_) => Ok(Some(Boxed::new(alloc, Ty::Int)?)),
        Node::Truth(_) => Ok(Some(Boxed::new(alloc, Ty::Bool)?)),
        Node::Name(name) => type_of_name(alloc, name, names),
        Node::Op(_, op, operands) => type_of_node(alloc, op, operands.as_slice(), names),
        Node::MatrixOn(items, axis) => {
            let tys = types_of(alloc, items.as_slice(), names)?;
            type_of_matrix(alloc, tys, axis.get())
        }
        Node::Comp(body, gens) => match types_under(alloc, gens.as_slice(), names)? {
            Some(under) => type_of_items(alloc, type_of(alloc, body.get(), &under)?),
            None => Ok(None),
        },
        Node::Cell(is_bool, name, _) => type_of_cell(alloc, *is_bool, name, names),
        Node::Seen(seen) => Ok(Some(type_of_dom(alloc, seen.get().dom.get())?)),
    }
}

/// The types of expressions, where each has one. `NoMemory` where there is no room for them.
#[cycle(type_of)]
#[tactic(auto, using(crate::proofs::Operands::nodes_more, crate::proofs::Operands::nodes_none, crate::proofs::Operands::nodes_end, crate::proofs::Operands::ahead_nothing))]
pub fn types_of(
    alloc: Global,
    nodes: &[Node],
    names: &NameTypes,
) -> Result<Option<Row<Ty>>, NoMemory>
    ensures { IfOk result (λ o. option_map (map pure_ty) o ≡ all_some (types_of (pure_nodes nodes.now) (pure_names names.now))) }
{
    let mut tys = Row::new(alloc);
    for node in nodes {
        match type_of(alloc, node, names)? {
            Some(ty) => tys.push(ty.into_inner())?,
            None => return Ok(None),
        }
    }
    Ok(Some(tys))
}

/// The types of expressions, there or not, one by one.
#[cycle(type_of)]
#[tactic(auto, using(crate::proofs::Operands::each_more, crate::proofs::Operands::each_end))]
fn each_type(
    alloc: Global,
    nodes: &[Node],
    names: &NameTypes,
) -> Result<Row<Option<Boxed<Ty>>>, NoMemory>
    ensures { IfOk result (λ r. map (option_map pure_ty) r ≡ types_of (pure_nodes nodes.now) (pure_names names.now)) }
{
    let mut tys = Row::new(alloc);
    for node in nodes {
        tys.push(type_of(alloc, node, names)?)?;
    }
    Ok(tys)
}

/// The type of a name.
fn type_of_name(
    alloc: Global,
    name: &Text,
    names: &NameTypes,
) -> Result<Option<Boxed<Ty>>, NoMemory>
    ensures { IfOk result (λ o. option_map pure_ty o ≡ look (pure_names names.now) name.now) }
{
    match names.look(name) {
        Some(ty) => Ok(Some(Boxed::new(alloc, ty.copy(alloc)?)?)),
        None => Ok(None),
    }
}

/// The type of an operator's node.
#[cycle(type_of)]
fn type_of_node(
    alloc: Global,
    op: &Op,
    operands: &[Node],
    names: &NameTypes,
) -> Result<Option<Boxed<Ty>>, NoMemory>
    ensures { IfOk result (λ o. option_map pure_ty o ≡
        type_of_node (pure_op op.now) (statics (pure_nodes operands.now)) (types_of (pure_nodes operands.now) (pure_names names.now))) }
{
    match op {
        Op::Index(steps) => {
            let tys = each_type(alloc, operands, names)?;
            type_of_index(alloc, steps.as_slice(), operands, tys.as_slice())
        }
        _ => match types_of(alloc, operands, names)? {
            Some(tys) => type_of_op(alloc, op, tys),
            None => Ok(None),
        },
    }
}

/// The type of a matrix over an index domain, from the types of its items.
fn type_of_matrix(
    alloc: Global,
    tys: Option<Row<Ty>>,
    axis: &NodeDom,
) -> Result<Option<Boxed<Ty>>, NoMemory>
    ensures { IfOk result (λ o. option_map pure_ty o ≡
        and_then (option_map (map pure_ty) tys) (λ ts. option_map (compound2 a_matrix (members_of (pure_dom axis.now))) (join_of_all ts))) }
{
    match tys {
        Some(tys) => matrix_of(alloc, axis, join_all(alloc, tys.as_slice())?),
        None => Ok(None),
    }
}

/// The type of a matrix over an index domain with items of this type.
fn matrix_of(
    alloc: Global,
    axis: &NodeDom,
    item: Option<Boxed<Ty>>,
) -> Result<Option<Boxed<Ty>>, NoMemory>
    ensures { IfOk result (λ o. option_map pure_ty o ≡ option_map (compound2 a_matrix (members_of (pure_dom axis.now))) (option_map pure_ty item)) }
{
    match item {
        Some(item) => {
            let index = type_of_dom(alloc, axis)?;
            Ok(Some(Boxed::new(alloc, Ty::Matrix(index, item))?))
        }
        None => Ok(None),
    }
}

/// The type of a comprehension, from that of its items.
fn type_of_items(alloc: Global, item: Option<Boxed<Ty>>) -> Result<Option<Boxed<Ty>>, NoMemory>
    ensures { IfOk result (λ o. option_map pure_ty o ≡ option_map (compound2 a_matrix int_ty) (option_map pure_ty item)) }
{
    match item {
        Some(item) => Ok(Some(type_of_comprehension(alloc, item)?)),
        None => Ok(None),
    }
}

/// The type of a cell.
fn type_of_cell(
    alloc: Global,
    is_bool: bool,
    name: &Text,
    names: &NameTypes,
) -> Result<Option<Boxed<Ty>>, NoMemory>
    ensures { IfOk result (λ o. option_map pure_ty o ≡
        Some (if is_bool then bool_ty else number_cell_ty (look (pure_names names.now) name.now))) }
{
    if is_bool {
        Ok(Some(Boxed::new(alloc, Ty::Bool)?))
    } else {
        Ok(Some(number_cell_type(alloc, names.look(name))?))
    }
}
