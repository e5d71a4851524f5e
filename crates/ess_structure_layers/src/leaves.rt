//! The structures of layers without a child.
ghost use Rattle.std.specs.Prelude.{◌≡◌, false, [], ◌∷◌, IfOk, map};
ghost use Rattle.ess_semantics.specs.Trees.{repr, no_reprs, cell_ex, seen_ex};
ghost use Rattle.ess_semantics.specs.Kinds.{dom_list};
ghost use Rattle.ess_semantics.specs.Meaning.{is_bool_dom};
ghost use Rattle.ess_semantics.specs.declared.words.ReprKind.TheVariants as kinds;
ghost use Rattle.ess_core_nodes.specs.NodeViews.{pure_node, pure_nodes, pure_dom, pure_doms, pure_mark};
ghost use Rattle.ess_repr_laws.specs.RelationParts.{bare_relation_dom, relation_ex};
ghost use Rattle.ess_repr_laws.specs.PartitionParts.{bare_partition_dom};
ghost use Rattle.ess_repr_laws.specs.CanonicalTables.{is_compound};
ghost use Rattle.ess_repr_laws.specs.Structure.{structure};
ghost use Rattle.ess_repr_declare_laws.specs.SizeTerms.{size_terms, inside_ex};
ghost use Rattle.ess_repr_laws.specs.StructureParts.{first_name};
ghost use Rattle.conjure_model_laws.specs.ToldApart.{reserved};

use crate::children::alone;
use crate::names::{behind, first_name};
use ess_core::ReprKind;
use ess_core_nodes::{Mark, Node, NodeDom, copy_doms};
use ess_node_building::truth;
use ess_rows::{Boxed, NoMemory, Row, Text};
use ess_size_terms::{dummy, inside, slots};
use ess_structure_attributes::{is_bool, numbered, occurrence, relation, view, with_dummy};
use ess_structure_terms::{cell_at, counts, only_axis};
use std::alloc::Global;

/// The structure of a layer without a child: false where the kind isn't one for the domain.
pub fn leaf(
    alloc: Global,
    kind: ReprKind,
    dom: &NodeDom,
    names: &[Text],
    level: u64,
    at: &[Node],
) -> Result<Boxed<Node>, NoMemory>
    requires { is_compound kind ≡ false }
    ensures { IfOk result (λ n. pure_node n ≡ structure reserved size_terms (repr kind no_reprs) (pure_dom dom.now) names.now level
        (pure_nodes at.now)) }
{
    match kind {
        ReprKind::Atom => atom(alloc, dom, names, at),
        ReprKind::Occurrence => members(alloc, dom, names, level, at),
        ReprKind::ExplicitVarSizeWithDummy => dummies(alloc, dom, names, level, at),
        ReprKind::MSetOccurrence => times(alloc, dom, names, level, at),
        ReprKind::RelationAsMatrix => tuples(alloc, dom, names, level, at),
        ReprKind::PartitionOccurrence => part_numbers(alloc, dom, names, level, at),
        _ => truth(alloc, false),
    }
}

/// The cell lies in the domain.
fn atom(alloc: Global, dom: &NodeDom, names: &[Text], at: &[Node]) -> Result<Boxed<Node>, NoMemory>
    ensures { IfOk result (λ n. pure_node n ≡ inside_ex (pure_dom dom.now)
        (cell_ex (is_bool_dom (pure_dom dom.now)) (first_name names.now) (pure_nodes at.now))) }
{
    let name = first_name(alloc, names)?;
    let cell = cell_at(alloc, is_bool(dom), &name, at)?;
    inside(alloc, dom, cell.get())
}

/// Sets by which members occur.
fn members(
    alloc: Global,
    dom: &NodeDom,
    names: &[Text],
    level: u64,
    at: &[Node],
) -> Result<Boxed<Node>, NoMemory>
    ensures { IfOk result (λ n. pure_node n ≡ structure reserved size_terms (repr kinds.Occurrence no_reprs) (pure_dom dom.now)
        names.now level (pure_nodes at.now)) }
{
    match dom {
        NodeDom::Set(marks, numbers, member) => {
            let name = first_name(alloc, names)?;
            let (marks, numbers) = (marks.as_slice(), numbers.as_slice());
            occurrence(alloc, level, marks, numbers, member.get(), &name, at)
        }
        _ => truth(alloc, false),
    }
}

/// Sets in slots with a dummy.
fn dummies(
    alloc: Global,
    dom: &NodeDom,
    names: &[Text],
    level: u64,
    at: &[Node],
) -> Result<Boxed<Node>, NoMemory>
    ensures { IfOk result (λ n. pure_node n ≡ structure reserved size_terms (repr kinds.ExplicitVarSizeWithDummy no_reprs) (pure_dom
        dom.now) names.now level (pure_nodes at.now)) }
{
    match dom {
        NodeDom::Set(marks, numbers, member) => {
            let name = first_name(alloc, names)?;
            let size = slots(alloc, dom)?;
            let dummy = dummy(alloc, member.get())?;
            let (marks, numbers) = (marks.as_slice(), numbers.as_slice());
            let (size, dummy) = (size.get(), dummy.get());
            with_dummy(
                alloc,
                level,
                marks,
                numbers,
                size,
                dummy,
                member.get(),
                &name,
                at,
            )
        }
        _ => truth(alloc, false),
    }
}

/// Multisets by how often members occur.
fn times(
    alloc: Global,
    dom: &NodeDom,
    names: &[Text],
    level: u64,
    at: &[Node],
) -> Result<Boxed<Node>, NoMemory>
    ensures { IfOk result (λ n. pure_node n ≡ structure reserved size_terms (repr kinds.MSetOccurrence no_reprs) (pure_dom dom.now)
        names.now level (pure_nodes at.now)) }
{
    match dom {
        NodeDom::MSet(marks, numbers, member) => {
            let name = first_name(alloc, names)?;
            let axes = only_axis(alloc, member.get())?;
            let (marks, numbers) = (marks.as_slice(), numbers.as_slice());
            counts(alloc, level, marks, numbers, axes.as_slice(), &name, at)
        }
        _ => truth(alloc, false),
    }
}

/// Relations by which tuples occur.
fn tuples(
    alloc: Global,
    dom: &NodeDom,
    names: &[Text],
    level: u64,
    at: &[Node],
) -> Result<Boxed<Node>, NoMemory>
    ensures { IfOk result (λ n. pure_node n ≡ structure reserved size_terms (repr kinds.RelationAsMatrix no_reprs) (pure_dom dom.now)
        names.now level (pure_nodes at.now)) }
{
    match dom {
        NodeDom::Relation(marks, numbers, parts) => {
            let (marks, numbers, parts) = (marks.as_slice(), numbers.as_slice(), parts.as_slice());
            let name = first_name(alloc, names)?;
            let view = tuples_view(alloc, parts, &name, at)?;
            tuples_over(alloc, level, marks, numbers, parts, &name, at, view.get())
        }
        _ => truth(alloc, false),
    }
}

/// The relation over these domains of which nothing is asked, by the table of this name.
fn tuples_view(
    alloc: Global,
    parts: &[NodeDom],
    name: &Text,
    at: &[Node],
) -> Result<Boxed<Node>, NoMemory>
    ensures { IfOk result (λ n. pure_node n ≡ seen_ex (repr kinds.RelationAsMatrix no_reprs) (bare_relation_dom (pure_doms parts.now))
        (name.now ∷ []) (pure_nodes at.now)) }
{
    let parts = copy_doms(alloc, parts)?;
    let bare = NodeDom::Relation(Row::new(alloc), Row::new(alloc), parts);
    let bare = Boxed::new(alloc, bare)?;
    let cells = Row::from_array(alloc, [name.copy(alloc)?])?;
    view(
        alloc,
        alone(alloc, ReprKind::RelationAsMatrix),
        bare,
        cells,
        at,
    )
}

/// Which tuples over these domains occur, with the domains as axes.
fn tuples_over(
    alloc: Global,
    level: u64,
    marks: &[Mark],
    numbers: &[Node],
    parts: &[NodeDom],
    name: &Text,
    at: &[Node],
    view: &Node,
) -> Result<Boxed<Node>, NoMemory>
    ensures { IfOk result (λ n. pure_node n ≡ relation_ex reserved level (map pure_mark marks.now) (pure_nodes numbers.now)
        (pure_doms parts.now) (dom_list (pure_doms parts.now)) name.now (pure_nodes at.now) (pure_node view.now)) }
{
    let whole = relation(alloc, level, marks, numbers, parts, name, at, view)?;
    Ok(whole)
}

/// Partitions by the number of each member's part.
fn part_numbers(
    alloc: Global,
    dom: &NodeDom,
    names: &[Text],
    level: u64,
    at: &[Node],
) -> Result<Boxed<Node>, NoMemory>
    ensures { IfOk result (λ n. pure_node n ≡ structure reserved size_terms (repr kinds.PartitionOccurrence no_reprs) (pure_dom
        dom.now) names.now level (pure_nodes at.now)) }
{
    match dom {
        NodeDom::Partition(marks, numbers, member) => {
            let (marks, numbers, member) = (marks.as_slice(), numbers.as_slice(), member.get());
            let first = first_name(alloc, names)?;
            let name = first_name(alloc, behind(names, 1))?;
            let count = cell_at(alloc, false, &first, at)?;
            let view = parts_view(alloc, member, first, &name, at)?;
            let (count, view) = (count.get(), view.get());
            numbered(alloc, level, marks, numbers, member, count, &name, at, view)
        }
        _ => truth(alloc, false),
    }
}

/// The partition of a domain of which nothing is asked, by the number of its parts and the table of their numbers.
fn parts_view(
    alloc: Global,
    member: &NodeDom,
    count: Text,
    name: &Text,
    at: &[Node],
) -> Result<Boxed<Node>, NoMemory>
    ensures { IfOk result (λ n. pure_node n ≡ seen_ex (repr kinds.PartitionOccurrence no_reprs) (bare_partition_dom (pure_dom
        member.now)) (count ∷ name.now ∷ []) (pure_nodes at.now)) }
{
    let member = member.copy(alloc)?;
    let bare = NodeDom::Partition(Row::new(alloc), Row::new(alloc), member);
    let bare = Boxed::new(alloc, bare)?;
    let cells = Row::from_array(alloc, [count, name.copy(alloc)?])?;
    view(
        alloc,
        alone(alloc, ReprKind::PartitionOccurrence),
        bare,
        cells,
        at,
    )
}
