//! Values that are kept as another value: the view of the child, and its members.
ghost use Rattle.std.specs.Prelude.{◌≡◌, [], ◌∷◌, option_map, IfOk, map};
ghost use Rattle.ess_semantics.specs.Trees.{no_gens, seen_ex};
ghost use Rattle.ess_core.specs.TreeViews.{pure_repr};
ghost use Rattle.ess_core_nodes.specs.NodeViews.{pure_node, pure_nodes, pure_dom};
ghost use Rattle.ess_rules_laws.specs.Listings.{those};
ghost use Rattle.ess_rules_forms.specs.PureAlternatives.{pure_alternative};
ghost use Rattle.ess_views_laws.specs.ChildViews.{kept_as, child_listing};
ghost use Rattle.ess_rules_kinds.specs.ViewParts.{nested_view};
ghost use Rattle.ess_rules_kinds.specs.CodeParts.{pure_nested};
ghost use Rattle.ess_rules_children.specs.Kept.{kept_dom, tuples_of, pairs_of, parts_of};

use ess_core::{Repr, ReprKind};
use ess_core_nodes::{Node, NodeDom, Seen, copy_nodes, copy_texts};
use ess_node_building::{from, name};
use ess_rows::{Boxed, NoMemory, Row, Text};
use ess_rules_forms::Alternative;
use ess_rules_kinds::{Nested, nested_parts};
use ess_structure_domains::{pair_relation, part_sets, tuple_set};
use std::alloc::Global;

/// The members of a view of a value that is kept as another value: those of the child, each of which is called x. Nothing for another
/// tree; `NoMemory` where there is no room for it.
pub fn child_listing(
    alloc: Global,
    one: &Text,
    node: &Node,
) -> Result<Option<Row<Alternative>>, NoMemory>
    ensures { IfOk result (λ o. option_map (map pure_alternative) o ≡ child_listing one.now (pure_node node.now)) }
{
    match kept_as(alloc, node)? {
        Some(child) => Ok(Some(members_of(alloc, one, child)?)),
        None => Ok(None),
    }
}

/// All members of a term, as the one alternative.
fn members_of(alloc: Global, one: &Text, source: Boxed<Node>) -> Result<Row<Alternative>, NoMemory>
    ensures { IfOk result (λ l. map pure_alternative l ≡ those one.now (pure_node source) no_gens ∷ []) }
{
    let mut gens = Row::new(alloc);
    gens.push(from(alloc, one, source)?)?;
    let item = name(alloc, one)?;
    let mut all = Row::new(alloc);
    all.push(Alternative { gens, item })?;
    Ok(all)
}

/// The view of the child, of a view of a relation as the set of its tuples, of a function as the relation of its pairs, or of a partition
/// as the set of its parts. Nothing for another tree; `NoMemory` where there is no room for it.
#[tactic(auto, using(crate::proofs::KeptForms::kept_by_parts))]
pub fn kept_as(alloc: Global, node: &Node) -> Result<Option<Boxed<Node>>, NoMemory>
    ensures { IfOk result (λ o. option_map pure_node o ≡ kept_as (pure_node node.now)) }
{
    match nested_parts(node) {
        Some(parts) => kept_from(alloc, &parts),
        None => Ok(None),
    }
}

/// The same of the parts of a view.
#[tactic(auto, using(crate::proofs::KeptForms::kept_by_dom))]
fn kept_from(alloc: Global, parts: &Nested<'_>) -> Result<Option<Boxed<Node>>, NoMemory>
    ensures { IfOk result (λ o. option_map pure_node o ≡ kept_as (nested_view (pure_nested parts.now))) }
{
    match kept_dom(alloc, parts.kind, parts.dom)? {
        Some(dom) => Ok(Some(view(alloc, parts.child, dom, parts.cells, parts.at)?)),
        None => Ok(None),
    }
}

/// The domain of the child.
fn kept_dom(
    alloc: Global,
    kind: ReprKind,
    dom: &NodeDom,
) -> Result<Option<Boxed<NodeDom>>, NoMemory>
    ensures { IfOk result (λ o. option_map pure_dom o ≡ kept_dom kind (pure_dom dom.now)) }
{
    match kind {
        ReprKind::RelationAsSet => tuples_of(alloc, dom),
        ReprKind::FunctionAsRelation => pairs_of(alloc, dom),
        ReprKind::PartitionAsSet => parts_of(alloc, dom),
        _ => Ok(None),
    }
}

/// The set of a relation's tuples.
fn tuples_of(alloc: Global, dom: &NodeDom) -> Result<Option<Boxed<NodeDom>>, NoMemory>
    ensures { IfOk result (λ o. option_map pure_dom o ≡ tuples_of (pure_dom dom.now)) }
{
    match dom {
        NodeDom::Relation(marks, numbers, parts) => Ok(Some(tuple_set(
            alloc,
            marks.as_slice(),
            numbers.as_slice(),
            parts.as_slice(),
        )?)),
        _ => Ok(None),
    }
}

/// The relation of a function's pairs.
fn pairs_of(alloc: Global, dom: &NodeDom) -> Result<Option<Boxed<NodeDom>>, NoMemory>
    ensures { IfOk result (λ o. option_map pure_dom o ≡ pairs_of (pure_dom dom.now)) }
{
    match dom {
        NodeDom::Function(marks, numbers, from, to) => Ok(Some(pair_relation(
            alloc,
            marks.as_slice(),
            numbers.as_slice(),
            from.get(),
            to.get(),
        )?)),
        _ => Ok(None),
    }
}

/// The set of a partition's parts.
fn parts_of(alloc: Global, dom: &NodeDom) -> Result<Option<Boxed<NodeDom>>, NoMemory>
    ensures { IfOk result (λ o. option_map pure_dom o ≡ parts_of (pure_dom dom.now)) }
{
    match dom {
        NodeDom::Partition(marks, numbers, member) => Ok(Some(part_sets(
            alloc,
            marks.as_slice(),
            numbers.as_slice(),
            member.get(),
        )?)),
        _ => Ok(None),
    }
}

/// A view.
#[tactic(auto, using(ess_core_nodes::proofs::NodeEquations::pure_seen_is))]
pub(crate) fn view(
    alloc: Global,
    repr: &Repr,
    dom: Boxed<NodeDom>,
    cells: &[Text],
    at: &[Node],
) -> Result<Boxed<Node>, NoMemory>
    ensures { IfOk result (λ n. pure_node n ≡ seen_ex (pure_repr repr.now) (pure_dom dom) cells.now (pure_nodes at.now)) }
{
    let at = copy_nodes(alloc, at)?;
    let cells = copy_texts(alloc, cells)?;
    let repr = repr.copy(alloc)?;
    let seen = Boxed::new(
        alloc,
        Seen {
            repr,
            dom,
            cells,
            at,
        },
    )?;
    Boxed::new(alloc, Node::Seen(seen))
}
