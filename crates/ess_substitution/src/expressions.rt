//! Expressions with another one in the place of a name.
ghost use Rattle.std.specs.Prelude.{◌≡◌, IfOk, map};
ghost use Rattle.ess_semantics.specs.Trees.{node_ex};
ghost use Rattle.ess_semantics.specs.Substitution.{substitute, substitute_exs, for_name};
ghost use Rattle.ess_core_nodes.specs.NodeViews.{pure_node, pure_nodes, pure_op, pure_seen};

use crate::domains::substitute_dom;
use crate::generators::substitute_gens;
use ess_core_nodes::{Node, Op, Seen, copy_texts};
use ess_rows::{Boxed, NoMemory, Row, Text};
use std::alloc::Global;
use std::cmp::Ordering;

/// The tree with a value in the place of a name. `NoMemory` where there is no room for it.
#[cycle(substituted)]
pub fn substitute(
    alloc: Global,
    node: &Node,
    name: &Text,
    value: &Node,
) -> Result<Boxed<Node>, NoMemory>
    ensures { IfOk result (λ n. pure_node n ≡ substitute (for_name name.now (pure_node value.now)) (pure_node node.now)) }
{
    match node {
        Node::Number(number) => Boxed::new(alloc, Node::Number(*number)),
        Node::Truth(truth) => Boxed::new(alloc, Node::Truth(*truth)),
        Node::Name(used) => in_place(alloc, used, name, value),
        Node::Op(mark, op, operands) => {
            let operands = substitute_nodes(alloc, operands.as_slice(), name, value)?;
            op_node(alloc, *mark, op, operands)
        }
        Node::MatrixOn(items, axis) => {
            let items = substitute_nodes(alloc, items.as_slice(), name, value)?;
            let axis = substitute_dom(alloc, axis.get(), name, value)?;
            Boxed::new(alloc, Node::MatrixOn(items, axis))
        }
        Node::Comp(body, gens) => {
            let body = substitute(alloc, body.get(), name, value)?;
            let gens = substitute_gens(alloc, gens.as_slice(), name, value)?;
            Boxed::new(alloc, Node::Comp(body, gens))
        }
        Node::Cell(is_bool, cell, at) => {
            let at = substitute_nodes(alloc, at.as_slice(), name, value)?;
            let cell = cell.copy(alloc)?;
            Boxed::new(alloc, Node::Cell(*is_bool, cell, at))
        }
        Node::Seen(seen) => substitute_seen(alloc, seen.get(), name, value),
    }
}

/// The same of several trees.
#[cycle(substituted)]
#[tactic(auto, using(crate::proofs::Rows::substituted_exs))]
pub(crate) fn substitute_nodes(
    alloc: Global,
    nodes: &[Node],
    name: &Text,
    value: &Node,
) -> Result<Row<Node>, NoMemory>
    ensures { IfOk result (λ ns. pure_nodes ns
        ≡ substitute_exs (for_name name.now (pure_node value.now)) (pure_nodes nodes.now)) }
{
    Ok(each_node(alloc, nodes, name, value)?)
}

/// The same of several trees, one by one.
#[cycle(substituted)]
fn each_node(
    alloc: Global,
    nodes: &[Node],
    name: &Text,
    value: &Node,
) -> Result<Row<Node>, NoMemory>
    ensures { IfOk result (λ ns. map pure_node ns
        ≡ map (substitute (for_name name.now (pure_node value.now))) (map pure_node nodes.now)) }
{
    let mut all = Row::with_capacity(alloc, nodes.len())?;
    for node in nodes {
        let item = substitute(alloc, node, name, value)?;
        all.push(item.into_inner())?;
    }
    Ok(all)
}

/// The same of a view.
#[cycle(substituted)]
#[tactic(auto, using(ess_core_nodes::proofs::NodeEquations::pure_seen_is))]
fn substitute_seen(
    alloc: Global,
    seen: &Seen,
    name: &Text,
    value: &Node,
) -> Result<Boxed<Node>, NoMemory>
    ensures { IfOk result (λ n. pure_node n ≡ substitute (for_name name.now (pure_node value.now)) (pure_seen seen.now)) }
{
    let dom = substitute_dom(alloc, seen.dom.get(), name, value)?;
    let at = substitute_nodes(alloc, seen.at.as_slice(), name, value)?;
    let cells = copy_texts(alloc, seen.cells.as_slice())?;
    let repr = seen.repr.copy(alloc)?;
    let seen = Boxed::new(
        alloc,
        Seen {
            repr,
            dom,
            cells,
            at,
        },
    )?;
    Boxed::new(alloc, Node::Seen(seen))
}

/// A copy of an operator with these operands.
fn op_node(alloc: Global, mark: bool, op: &Op, operands: Row<Node>) -> Result<Boxed<Node>, NoMemory>
    ensures { IfOk result (λ n. pure_node n ≡ node_ex mark (pure_op op.now) (pure_nodes operands)) }
{
    let op = op.copy(alloc)?;
    Boxed::new(alloc, Node::Op(mark, op, operands))
}

/// What stands in the place of a used name: the value, where it is this name.
fn in_place(alloc: Global, used: &Text, name: &Text, value: &Node) -> Result<Boxed<Node>, NoMemory>
    ensures { IfOk result (λ n. pure_node n ≡ for_name name.now (pure_node value.now) used.now) }
{
    if name.cmp(used) == Ordering::Equal {
        return value.copy(alloc);
    }
    let used = used.copy(alloc)?;
    Boxed::new(alloc, Node::Name(used))
}
