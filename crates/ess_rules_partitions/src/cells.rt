//! The numbers of the parts of members, and that a member is one of a domain.
ghost use Rattle.std.specs.Prelude.{◌≡◌, true, false, IfOk};
ghost use Rattle.ess_semantics.specs.Trees.{cell_ex, ex2};
ghost use Rattle.ess_core_nodes.specs.NodeViews.{pure_node, pure_nodes, pure_dom};
ghost use Rattle.ess_rules_laws.specs.SetListings.{put_last};
ghost use Rattle.ess_views_laws.specs.PartitionViews.{is_one_of};

use ess_core::Op2;
use ess_core_nodes::{Node, NodeDom, copy_nodes};
use ess_node_building::{binary, name};
use ess_rows::{Boxed, NoMemory, Row, Text};
use ess_rules_forms::some_over;
use ess_rules_kinds::pieces::cell;
use std::alloc::Global;

/// The index list with a tree behind.
#[tactic(auto, using(crate::proofs::LastOperand::last_behind))]
fn behind(alloc: Global, at: &[Node], last: &Node) -> Result<Row<Node>, NoMemory>
    ensures { IfOk result (λ ns. pure_nodes ns ≡ put_last (pure_nodes at.now) (pure_node last.now)) }
{
    let mut all = copy_nodes(alloc, at)?;
    all.push(last.copy(alloc)?.into_inner())?;
    Ok(all)
}

/// The number of a member's part.
pub(crate) fn number_of(
    alloc: Global,
    numbers: &Text,
    at: &[Node],
    member: &Node,
) -> Result<Boxed<Node>, NoMemory>
    ensures { IfOk result (λ n. pure_node n ≡ cell_ex false numbers.now (put_last (pure_nodes at.now) (pure_node member.now))) }
{
    cell(alloc, false, numbers, behind(alloc, at, member)?)
}

/// That two members have the same number.
pub(crate) fn same_number(
    alloc: Global,
    numbers: &Text,
    at: &[Node],
    one: &Node,
    other: &Node,
) -> Result<Boxed<Node>, NoMemory>
    ensures { IfOk result (λ n. pure_node n
        ≡ ex2 true Op2.Eq (cell_ex false numbers.now (put_last (pure_nodes at.now) (pure_node one.now)))
        (cell_ex false numbers.now (put_last (pure_nodes at.now) (pure_node other.now)))) }
{
    let first = number_of(alloc, numbers, at, one)?;
    let second = number_of(alloc, numbers, at, other)?;
    binary(alloc, true, Op2::Eq, first, second)
}

/// That some member of a domain, called by the name, is this one.
pub(crate) fn is_one_of(
    alloc: Global,
    one: &Text,
    dom: &NodeDom,
    member: &Node,
) -> Result<Boxed<Node>, NoMemory>
    ensures { IfOk result (λ n. pure_node n ≡ is_one_of one.now (pure_dom dom.now) (pure_node member.now)) }
{
    let named = name(alloc, one)?;
    let test = binary(alloc, true, Op2::Eq, named, member.copy(alloc)?)?;
    some_over(alloc, one, dom, test)
}
