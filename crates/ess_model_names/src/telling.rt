//! Bound names of expressions told apart.
ghost use Rattle.std.specs.Prelude.{◌≡◌, [], IfOk, OnOk, map};
ghost use Rattle.ess_core_nodes.specs.NodeViews.{pure_node, pure_nodes};
ghost use Rattle.conjure_model_laws.specs.ToldApart.{told, told_all, told_apart};
ghost use Rattle.ess_model_names.specs.Renames.{pure_scope};

use crate::scopes::{Renamed, renamed_name};
use crate::told_domains::told_dom;
use crate::told_generators::told_gens;
use ess_core_nodes::Node;
use ess_node_building::{comprehension, number, truth};
use ess_node_remaking::{cell_at, matrix_on, operator, view_at};
use ess_rows::{Boxed, NoMemory, Row};
use std::alloc::Global;

/// The tree with its bound names told apart: each becomes a reserved name of its own, from the one with this number on. `NoMemory`
/// where there is no room for it, or the reserved names can't be counted.
pub fn told_apart(alloc: Global, number: u64, node: &Node) -> Result<Boxed<Node>, NoMemory>
    ensures { IfOk result (λ n. pure_node n ≡ told_apart number (pure_node node.now)) }
{
    let mut next = number;
    told_apart_from(alloc, node, &mut next)
}

/// The same, and the number of the reserved name behind them is left in `next`. `NoMemory` as above; the number is then any.
pub fn told_apart_from(alloc: Global, node: &Node, next: &mut u64) -> Result<Boxed<Node>, NoMemory>
    ensures tree { IfOk result (λ n. pure_node n ≡ (told (pure_node node.now) [] next.old).0) }
    ensures next { OnOk result (next.new ≡ (told (pure_node node.now) [] next.old).1) }
{
    let mut scope = Row::new(alloc);
    told(alloc, node, &mut scope, next)
}

/// The tree with the next reserved names in the place of its bound names, where the names of the scope have become others.
#[cycle(told)]
#[tactic(auto, using(ess_core_nodes::proofs::NodeEquations::pure_seen_is))]
pub(crate) fn told(
    alloc: Global,
    node: &Node,
    scope: &mut Row<Renamed>,
    next: &mut u64,
) -> Result<Boxed<Node>, NoMemory>
    ensures tree { IfOk result (λ n. pure_node n ≡ (told (pure_node node.now) (pure_scope scope.old) next.old).0) }
    ensures next { OnOk result (next.new ≡ (told (pure_node node.now) (pure_scope scope.old) next.old).1) }
    ensures kept { OnOk result (scope.new ≡ scope.old) }
{
    match node {
        Node::Number(value) => number(alloc, *value),
        Node::Truth(value) => truth(alloc, *value),
        Node::Name(name) => renamed_name(alloc, scope.as_slice(), name),
        Node::Op(mark, op, operands) => {
            let operands = told_all(alloc, operands.as_slice(), scope, next)?;
            operator(alloc, *mark, op, operands)
        }
        Node::MatrixOn(items, axis) => {
            let items = told_all(alloc, items.as_slice(), scope, next)?;
            let axis = told_dom(alloc, axis.get(), scope, next)?;
            matrix_on(alloc, items, axis)
        }
        Node::Comp(body, gens) => {
            let bound = scope.len();
            let gens = told_gens(alloc, gens.as_slice(), scope, next)?;
            let body = told(alloc, body.get(), scope, next)?;
            scope.truncate(bound);
            comprehension(alloc, body, gens)
        }
        Node::Cell(is_bool, name, at) => {
            let at = told_all(alloc, at.as_slice(), scope, next)?;
            cell_at(alloc, *is_bool, name, at)
        }
        Node::Seen(seen) => {
            let at = told_all(alloc, seen.get().at.as_slice(), scope, next)?;
            view_at(alloc, seen.get(), at)
        }
    }
}

/// The same of operands.
#[cycle(told)]
pub(crate) fn told_all(
    alloc: Global,
    nodes: &[Node],
    scope: &mut Row<Renamed>,
    next: &mut u64,
) -> Result<Row<Node>, NoMemory>
    ensures tree { IfOk result (λ ns. pure_nodes ns ≡ (told_all (pure_nodes nodes.now) (pure_scope scope.old) next.old).0) }
    ensures next { OnOk result (next.new ≡ (told_all (pure_nodes nodes.now) (pure_scope scope.old) next.old).1) }
    ensures kept { OnOk result (scope.new ≡ scope.old) }
{
    let mut all = Row::with_capacity(alloc, nodes.len())?;
    for node in nodes {
        let item = told(alloc, node, scope, next)?;
        all.push(item.into_inner())?;
    }
    Ok(all)
}
