//! Listings of partitions that are kept by the number of each member's part.
ghost use Rattle.std.specs.Prelude.{◌≡◌, [], ◌∷◌, option_map, IfOk};
ghost use Rattle.ess_semantics.specs.Trees.{flag, repr, no_reprs, more_reprs, no_exs, function_dom};
ghost use Rattle.ess_core.specs.TreeViews.{pure_repr};
ghost use Rattle.ess_core_nodes.specs.NodeViews.{pure_node, pure_nodes, pure_dom};
ghost use Rattle.ess_rules_laws.specs.SlotListings.{slots_dom};
ghost use Rattle.ess_views_laws.specs.PartitionViews.{numbering, part_numbered, partition_parts};
ghost use Rattle.ess_rules_kinds.specs.ViewParts.{pair_view};
ghost use Rattle.ess_rules_forms.specs.PureAlternatives.{pure_alternative};
ghost use Rattle.ess_rules_kinds.specs.CodeParts.{pure_pair};

use crate::parts::{Pair, pair_parts};
use crate::pieces::{gens_where, slots_dom, up_to};
use ess_core::{Fun, Key, Repr, ReprKind};
use ess_core_nodes::{Mark, Node, NodeDom, Op, Seen, copy_nodes};
use ess_node_building::{literal, name, two};
use ess_rows::{Boxed, NoMemory, Row, Text};
use ess_rules_forms::Alternative;
use std::alloc::Global;

/// The parts of a partition that is kept by the number of each member's part: the name over the numbers of parts, and the members with
/// this number; the tree says how many members there are. Nothing for another tree; `NoMemory` where there is no room for it.
#[tactic(auto, using(crate::proofs::PairListings::parts_by_parts))]
pub fn partition_parts(
    alloc: Global,
    one: &Text,
    members: &Node,
    view: &Node,
) -> Result<Option<Alternative>, NoMemory>
    ensures { IfOk result (λ o. option_map pure_alternative o ≡ partition_parts one.now (pure_node members.now) (pure_node view.now)) }
{
    match pair_parts(view) {
        Some(parts) => partition_from(alloc, one, members, &parts),
        None => Ok(None),
    }
}

/// The same of the parts of a view.
fn partition_from(
    alloc: Global,
    one: &Text,
    members: &Node,
    parts: &Pair<'_>,
) -> Result<Option<Alternative>, NoMemory>
    ensures { IfOk result (λ o. option_map pure_alternative o
        ≡ partition_parts one.now (pure_node members.now) (pair_view (pure_pair parts.now))) }
{
    match parts.kind {
        ReprKind::PartitionOccurrence => match parts.dom {
            NodeDom::Partition(_, _, member) => {
                let test = up_to(alloc, one, parts.first, parts.at)?;
                let gens = gens_where(alloc, one, slots_dom(alloc, members)?, test)?;
                let item = part_numbered(
                    alloc,
                    members,
                    member.get(),
                    parts.second,
                    parts.at,
                    one,
                )?;
                Ok(Some(Alternative { gens, item }))
            }
            _ => Ok(None),
        },
        _ => Ok(None),
    }
}

/// The members with this number.
fn part_numbered(
    alloc: Global,
    members: &Node,
    member: &NodeDom,
    table: &Text,
    at: &[Node],
    part: &Text,
) -> Result<Boxed<Node>, NoMemory>
    ensures { IfOk result (λ n. pure_node n
        ≡ part_numbered (pure_node members.now) (pure_dom member.now) table.now (pure_nodes at.now) part.now) }
{
    let function = numbering(alloc, members, member, table, at)?;
    let operands = two(alloc, function, name(alloc, part)?)?;
    literal(alloc, Op::Word(Fun::PreImage), operands)
}

/// The second table of such a partition as a function from the members to the numbers of their parts; the tree says how many members
/// there are. `NoMemory` where there is no room for it.
#[tactic(auto, using(ess_core_nodes::proofs::NodeEquations::pure_seen_is))]
pub fn numbering(
    alloc: Global,
    members: &Node,
    member: &NodeDom,
    table: &Text,
    at: &[Node],
) -> Result<Boxed<Node>, NoMemory>
    ensures { IfOk result (λ n. pure_node n
        ≡ numbering (pure_node members.now) (pure_dom member.now) table.now (pure_nodes at.now)) }
{
    let dom = numbers_of(alloc, members, member)?;
    let at = copy_nodes(alloc, at)?;
    let mut cells = Row::new(alloc);
    cells.push(table.copy(alloc)?)?;
    let repr = by_argument(alloc)?;
    let seen = Boxed::new(
        alloc,
        Seen {
            repr,
            dom,
            cells,
            at,
        },
    )?;
    Boxed::new(alloc, Node::Seen(seen))
}

/// Total functions from the members to the numbers.
fn numbers_of(alloc: Global, members: &Node, member: &NodeDom) -> Result<Boxed<NodeDom>, NoMemory>
    ensures { IfOk result (λ d. pure_dom d
        ≡ function_dom (flag Key.Total ∷ []) no_exs (pure_dom member.now) (slots_dom (pure_node members.now))) }
{
    let numbers = slots_dom(alloc, members)?;
    let member = member.copy(alloc)?;
    let mut marks = Row::new(alloc);
    marks.push(Mark::Flag(Key::Total))?;
    Boxed::new(
        alloc,
        NodeDom::Function(marks, Row::new(alloc), member, numbers),
    )
}

/// The representation of functions by argument, with atoms as results.
#[tactic(auto, using(ess_core::proofs::RepresentationEquations::pure_repr_is))]
fn by_argument(alloc: Global) -> Result<Repr, NoMemory>
    ensures { IfOk result (λ r. pure_repr r ≡ repr ReprKind.Function1D (more_reprs (repr ReprKind.Atom no_reprs) no_reprs)) }
{
    let atom = Repr {
        kind: ReprKind::Atom,
        children: Row::new(alloc),
    };
    let mut children = Row::new(alloc);
    children.push(atom)?;
    Ok(Repr {
        kind: ReprKind::Function1D,
        children,
    })
}
