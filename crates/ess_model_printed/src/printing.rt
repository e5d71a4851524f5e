//! Bound names of refined trees printed.
ghost use Rattle.std.specs.Prelude.{◌≡◌, [], IfOk, OnOk, map};
ghost use Rattle.ess_semantics.specs.Trees.{matrix_ex};
ghost use Rattle.ess_core_nodes.specs.NodeViews.{pure_node, pure_nodes, pure_dom};
ghost use Rattle.conjure_model_laws.specs.Printed.{printed, printed_all, printed_dom};
ghost use Rattle.ess_model_names.specs.Renames.{pure_scope};

use crate::printed_generators::printed_gens;
use crate::taken::Taken;
use ess_core_nodes::{Node, NodeDom};
use ess_model_names::{Renamed, renamed_name};
use ess_node_building::{comprehension, number, truth};
use ess_node_remaking::{cell_at, int_domain, matrix_on, operator, view};
use ess_rows::{Boxed, NoMemory, Row};
use std::alloc::Global;

/// A refined tree with printed names: that of a binder under d others is the (d + 1)-th of q1, q2, .. that isn't taken. `NoMemory`
/// where there is no room for it.
pub fn printed(alloc: Global, taken: &Taken, node: &Node) -> Result<Boxed<Node>, NoMemory>
    ensures { IfOk result (λ n. pure_node n ≡ printed taken.now (pure_node node.now) []) }
{
    let mut scope = Row::new(alloc);
    printed_under(alloc, taken, node, &mut scope)
}

/// The tree with printed names, where those of the scope are printed for the names that are bound around it.
#[cycle(printed)]
#[tactic(auto, using(ess_core_nodes::proofs::NodeEquations::pure_seen_is))]
pub(crate) fn printed_under(
    alloc: Global,
    taken: &Taken,
    node: &Node,
    scope: &mut Row<Renamed>,
) -> Result<Boxed<Node>, NoMemory>
    ensures tree { IfOk result (λ n. pure_node n ≡ printed taken.now (pure_node node.now) (pure_scope scope.old)) }
    ensures kept { OnOk result (scope.new ≡ scope.old) }
{
    match node {
        Node::Number(value) => number(alloc, *value),
        Node::Truth(value) => truth(alloc, *value),
        Node::Name(name) => renamed_name(alloc, scope.as_slice(), name),
        Node::Op(mark, op, operands) => {
            let operands = printed_all(alloc, taken, operands.as_slice(), scope)?;
            operator(alloc, *mark, op, operands)
        }
        Node::MatrixOn(items, axis) => {
            let items = printed_all(alloc, taken, items.as_slice(), scope)?;
            matrix_on_copy(alloc, items, axis.get())
        }
        Node::Comp(body, gens) => {
            let bound = scope.len();
            let gens = printed_gens(alloc, taken, gens.as_slice(), scope)?;
            let body = printed_under(alloc, taken, body.get(), scope)?;
            scope.truncate(bound);
            comprehension(alloc, body, gens)
        }
        Node::Cell(is_bool, name, at) => {
            let at = printed_all(alloc, taken, at.as_slice(), scope)?;
            cell_at(alloc, *is_bool, name, at)
        }
        Node::Seen(seen) => view(alloc, seen.get()),
    }
}

/// A matrix by its items over an index domain, which is copied.
fn matrix_on_copy(alloc: Global, items: Row<Node>, axis: &NodeDom) -> Result<Boxed<Node>, NoMemory>
    ensures { IfOk result (λ n. pure_node n ≡ matrix_ex (pure_nodes items) (pure_dom axis.now)) }
{
    let axis = axis.copy(alloc)?;
    matrix_on(alloc, items, axis)
}

/// The same of operands.
#[cycle(printed)]
fn printed_all(
    alloc: Global,
    taken: &Taken,
    nodes: &[Node],
    scope: &mut Row<Renamed>,
) -> Result<Row<Node>, NoMemory>
    ensures tree { IfOk result (λ ns. pure_nodes ns ≡ printed_all taken.now (pure_nodes nodes.now) (pure_scope scope.old)) }
    ensures kept { OnOk result (scope.new ≡ scope.old) }
{
    let mut all = Row::with_capacity(alloc, nodes.len())?;
    for node in nodes {
        let item = printed_under(alloc, taken, node, scope)?;
        all.push(item.into_inner())?;
    }
    Ok(all)
}

/// The same of a range. Other domains stay.
#[cycle(printed)]
pub(crate) fn printed_dom(
    alloc: Global,
    taken: &Taken,
    dom: &NodeDom,
    scope: &mut Row<Renamed>,
) -> Result<Boxed<NodeDom>, NoMemory>
    ensures tree { IfOk result (λ d. pure_dom d ≡ printed_dom taken.now (pure_dom dom.now) (pure_scope scope.old)) }
    ensures kept { OnOk result (scope.new ≡ scope.old) }
{
    match dom {
        NodeDom::Int(ends, bounds) => {
            let bounds = printed_all(alloc, taken, bounds.as_slice(), scope)?;
            int_domain(alloc, ends.as_slice(), bounds)
        }
        _ => dom.copy(alloc),
    }
}
