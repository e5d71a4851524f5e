//! The indices of arguments and members in tables, and what stands at them.
ghost use Rattle.std.specs.Prelude.{◌≡◌, IfOk, Some, option_map};
ghost use Rattle.ess_semantics.specs.Trees.{cell_ex, no_exs, more_exs};
ghost use Rattle.ess_semantics.specs.Meaning.{is_bool_dom};
ghost use Rattle.ess_core.specs.TreeViews.{pure_repr};
ghost use Rattle.ess_core_nodes.specs.NodeViews.{pure_node, pure_nodes, pure_dom};
ghost use Rattle.ess_rules_laws.specs.FunctionViews.{append_exs, result_at, flag_at};
ghost use Rattle.ess_rules_laws.specs.FunctionKeys.{fits_mark};
ghost use Rattle.ess_rules_views.specs.ViewForms.{total_keys, partial_keys, member_keys, tuple_items};

use crate::parts::tuple_items;
use ess_core::{Repr, ReprKind};
use ess_core_nodes::{Node, NodeDom, Seen, copy_nodes, copy_texts};
use ess_node_building::only;
use ess_rows::{Boxed, NoMemory, Row, Text};
use std::alloc::Global;

/// The one index of an atom.
fn atom_key(alloc: Global, argument: &Node) -> Result<Option<Row<Node>>, NoMemory>
    ensures { IfOk result (λ o. option_map pure_nodes o ≡ Some (more_exs (pure_node argument.now) no_exs)) }
{
    Ok(Some(only(alloc, argument.copy(alloc)?)?))
}

/// The indices of a tuple that is written as a literal.
fn tuple_keys(alloc: Global, argument: &Node) -> Result<Option<Row<Node>>, NoMemory>
    ensures { IfOk result (λ o. option_map pure_nodes o ≡ tuple_items (pure_node argument.now)) }
{
    match tuple_items(argument) {
        Some(items) => Ok(Some(copy_nodes(alloc, items)?)),
        None => Ok(None),
    }
}

/// The indices of an argument of a total function of this kind, from this domain.
pub(crate) fn total_keys(
    alloc: Global,
    kind: ReprKind,
    first: &NodeDom,
    argument: &Node,
) -> Result<Option<Row<Node>>, NoMemory>
    ensures { IfOk result (λ o. option_map pure_nodes o ≡ total_keys kind (pure_dom first.now) (pure_node argument.now)) }
{
    match kind {
        ReprKind::Function1D => atom_key(alloc, argument),
        ReprKind::FunctionND => match first {
            NodeDom::Tuple(_) => tuple_keys(alloc, argument),
            _ => Ok(None),
        },
        _ => Ok(None),
    }
}

/// The indices of an argument of a function with flags of this kind, from this domain.
pub(crate) fn partial_keys(
    alloc: Global,
    kind: ReprKind,
    first: &NodeDom,
    argument: &Node,
) -> Result<Option<Row<Node>>, NoMemory>
    ensures { IfOk result (λ o. option_map pure_nodes o ≡ partial_keys kind (pure_dom first.now) (pure_node argument.now)) }
{
    match kind {
        ReprKind::Function1DPartial => atom_key(alloc, argument),
        ReprKind::FunctionNDPartial => match first {
            NodeDom::Tuple(_) => tuple_keys(alloc, argument),
            _ => Ok(None),
        },
        _ => Ok(None),
    }
}

/// The indices of a member of what is kept in this kind, as a truth value for each possible member.
pub(crate) fn member_keys(
    alloc: Global,
    kind: ReprKind,
    dom: &NodeDom,
    member: &Node,
) -> Result<Option<Row<Node>>, NoMemory>
    ensures { IfOk result (λ o. option_map pure_nodes o ≡ member_keys kind (pure_dom dom.now) (pure_node member.now)) }
{
    match kind {
        ReprKind::Occurrence => match dom {
            NodeDom::Set(_, _, _) => atom_key(alloc, member),
            _ => Ok(None),
        },
        ReprKind::RelationAsMatrix => match dom {
            NodeDom::Relation(_, _, _) => tuple_keys(alloc, member),
            _ => Ok(None),
        },
        _ => Ok(None),
    }
}

/// An index list with further indices behind.
#[tactic(auto, using(crate::proofs::KeyLemmas::behind_others))]
fn indices(alloc: Global, at: &[Node], keys: &[Node]) -> Result<Row<Node>, NoMemory>
    ensures { IfOk result (λ ns. pure_nodes ns ≡ append_exs (pure_nodes at.now) (pure_nodes keys.now)) }
{
    let mut first = copy_nodes(alloc, at)?;
    let mut second = copy_nodes(alloc, keys)?;
    first.append(&mut second)?;
    Ok(first)
}

/// The view of a child at these indices.
#[tactic(auto, using(ess_core_nodes::proofs::NodeEquations::pure_seen_is))]
pub(crate) fn result_at(
    alloc: Global,
    child: &Repr,
    dom: &NodeDom,
    cells: &[Text],
    at: &[Node],
    keys: &[Node],
) -> Result<Boxed<Node>, NoMemory>
    ensures { IfOk result (λ n. pure_node n ≡
        result_at (pure_repr child.now) (pure_dom dom.now) cells.now (pure_nodes at.now) (pure_nodes keys.now)) }
{
    let at = indices(alloc, at, keys)?;
    let cells = copy_texts(alloc, cells)?;
    let dom = dom.copy(alloc)?;
    let repr = child.copy(alloc)?;
    let seen = Boxed::new(
        alloc,
        Seen {
            repr,
            dom,
            cells,
            at,
        },
    )?;
    Boxed::new(alloc, Node::Seen(seen))
}

/// The truth value in a table at these indices.
pub(crate) fn flag_at(
    alloc: Global,
    table: &Text,
    at: &[Node],
    keys: &[Node],
) -> Result<Boxed<Node>, NoMemory>
    ensures { IfOk result (λ n. pure_node n ≡ flag_at table.now (pure_nodes at.now) (pure_nodes keys.now)) }
{
    cell(alloc, true, table, indices(alloc, at, keys)?)
}

/// A cell.
pub(crate) fn cell(
    alloc: Global,
    mark: bool,
    table: &Text,
    at: Row<Node>,
) -> Result<Boxed<Node>, NoMemory>
    ensures { IfOk result (λ n. pure_node n ≡ cell_ex mark table.now (pure_nodes at)) }
{
    let table = table.copy(alloc)?;
    Boxed::new(alloc, Node::Cell(mark, table, at))
}

/// Whether the domain is that of truth values.
pub(crate) fn is_truths(dom: &NodeDom) -> bool
    ensures { result ≡ is_bool_dom (pure_dom dom.now) }
{
    match dom {
        NodeDom::Bool => true,
        _ => false,
    }
}

/// Whether a result of this domain may stand where a truth value is asked, if one is.
pub(crate) fn fits_mark(mark: bool, dom: &NodeDom) -> bool
    ensures { result ≡ fits_mark mark (pure_dom dom.now) }
{
    !mark || is_truths(dom)
}
