//! Components of views of tuples, and fields of views of records: the view of a child.
ghost use Rattle.std.specs.Prelude.{◌≡◌, take, drop, map, option_map, IfOk};
ghost use Rattle.ess_semantics.specs.Choice.{reprs_of};
ghost use Rattle.ess_semantics.specs.Order.{same_text};
ghost use Rattle.ess_semantics.specs.Representations.{width as width_of};
ghost use Rattle.ess_semantics.specs.Trees.{seen_ex};
ghost use Rattle.ess_core.specs.TreeViews.{pure_repr};
ghost use Rattle.ess_core_nodes.specs.NodeViews.{pure_node, pure_nodes, pure_dom, pure_doms, pure_seen, pure_step};
ghost use Rattle.ess_views_laws.specs.ComponentViews.{child_at, child_of_field, component_view};
ghost use Rattle.ess_rules_children.specs.Stepped.{only_step, stepped, tuple_children, tuple_parts, numbered};
ghost use Rattle.ess_rules_children.specs.Stepped.{field_children, field_parts, named, component_of};

use crate::kept::view;
use crate::widths::width;
use ess_core::{Repr, ReprKind};
use ess_core_nodes::{Node, NodeDom, Op, Seen, Step};
use ess_rows::{Boxed, NoMemory, Text};
use ess_rules_forms::only_in;
use std::alloc::Global;
use std::cmp::Ordering;

/// `v[k]` of a view of a tuple, and `v[a]` of one of a record, become the view of the child, whose tables stand behind those of the
/// children before it. Nothing for another tree, or where there is no such child; `NoMemory` where there is no room for it.
#[tactic(auto, using(crate::proofs::ComponentForms::component_by_step))]
pub fn component_view(alloc: Global, node: &Node) -> Result<Option<Boxed<Node>>, NoMemory>
    ensures { IfOk result (λ o. option_map pure_node o ≡ component_view (pure_node node.now)) }
{
    match stepped(node) {
        Some((view, step)) => component_of(alloc, view, step),
        None => Ok(None),
    }
}

/// The term and its one step.
#[tactic(auto, using(ess_core_nodes::proofs::NodeEquations::pure_seen_is))]
fn stepped(node: &Node) -> Option<(&Node, &Step)>
    ensures { option_map (λ p. (pure_node p.0.now, pure_step p.1.now)) result ≡ stepped (pure_node node.now) }
{
    match node {
        Node::Op(_, Op::Index(steps), operands) => match only_step(steps.as_slice()) {
            None => None,
            Some(step) => match only_in(operands.as_slice()) {
                None => None,
                Some(view) => Some((view, step)),
            },
        },
        _ => None,
    }
}

/// The only step.
fn only_step(steps: &[Step]) -> Option<&Step>
    ensures { option_map (λ s. pure_step s.now) result ≡ only_step (map pure_step steps.now) }
{
    match steps.split_first() {
        None => None,
        Some((step, rest)) => match rest.split_first() {
            None => Some(step),
            Some(_) => None,
        },
    }
}

/// The child of a step.
fn component_of(alloc: Global, view: &Node, step: &Step) -> Result<Option<Boxed<Node>>, NoMemory>
    ensures { IfOk result (λ o. option_map pure_node o ≡ component_of (pure_node view.now) (pure_step step.now)) }
{
    match step {
        Step::Component(number) => numbered(alloc, *number, view),
        Step::Field(name) => named(alloc, name, view),
        Step::Value => Ok(None),
    }
}

/// The child of this number of a view of a tuple.
fn numbered(alloc: Global, number: u64, view: &Node) -> Result<Option<Boxed<Node>>, NoMemory>
    ensures { IfOk result (λ o. option_map pure_node o ≡ numbered number (pure_node view.now)) }
{
    match view {
        Node::Seen(seen) => numbered_of(alloc, number, seen.get()),
        _ => Ok(None),
    }
}

/// The same of a view.
#[tactic(auto, using(ess_core_nodes::proofs::NodeEquations::pure_seen_is))]
fn numbered_of(alloc: Global, number: u64, seen: &Seen) -> Result<Option<Boxed<Node>>, NoMemory>
    ensures { IfOk result (λ o. option_map pure_node o ≡ numbered number (pure_seen seen.now)) }
{
    match tuple_children(&seen.repr) {
        None => Ok(None),
        Some(reprs) => match tuple_parts(seen.dom.get()) {
            None => Ok(None),
            Some(doms) => {
                let cells = seen.cells.as_slice();
                child_at(alloc, number, reprs, doms, cells, seen.at.as_slice())
            }
        },
    }
}

/// The representations of a tuple's components.
#[tactic(auto, using(ess_core::proofs::RepresentationEquations::pure_repr_is))]
fn tuple_children(repr: &Repr) -> Option<&[Repr]>
    ensures { option_map (λ rs. reprs_of (map pure_repr rs.now)) result ≡ tuple_children (pure_repr repr.now) }
{
    match repr.kind {
        ReprKind::Tuple => Some(repr.children.as_slice()),
        _ => None,
    }
}

/// The domains of a tuple's components.
fn tuple_parts(dom: &NodeDom) -> Option<&[NodeDom]>
    ensures { option_map (λ ds. pure_doms ds.now) result ≡ tuple_parts (pure_dom dom.now) }
{
    match dom {
        NodeDom::Tuple(doms) => Some(doms.as_slice()),
        _ => None,
    }
}

/// The child of this number, from 1.
#[tactic(auto, using(crate::proofs::ComponentForms::no_children, crate::proofs::ComponentForms::no_domains, crate::proofs::ComponentForms::child_first, crate::proofs::ComponentForms::child_next))]
fn child_at(
    alloc: Global,
    number: u64,
    reprs: &[Repr],
    doms: &[NodeDom],
    cells: &[Text],
    at: &[Node],
) -> Result<Option<Boxed<Node>>, NoMemory>
    ensures { IfOk result (λ o. option_map pure_node o
        ≡ child_at number (reprs_of (map pure_repr reprs.now)) (pure_doms doms.now) cells.now (pure_nodes at.now)) }
{
    match reprs.split_first() {
        None => Ok(None),
        Some((repr, reprs)) => match doms.split_first() {
            None => Ok(None),
            Some((dom, doms)) => {
                if number == 0 {
                    return Ok(None);
                }
                if number == 1 {
                    let child = first_child(alloc, repr, dom, cells, at)?;
                    return Ok(Some(child));
                }
                let cells = behind_child(repr, cells)?;
                child_at(alloc, number - 1, reprs, doms, cells, at)
            }
        },
    }
}

/// The child of a field of a view of a record.
fn named(alloc: Global, name: &Text, view: &Node) -> Result<Option<Boxed<Node>>, NoMemory>
    ensures { IfOk result (λ o. option_map pure_node o ≡ named name.now (pure_node view.now)) }
{
    match view {
        Node::Seen(seen) => named_of(alloc, name, seen.get()),
        _ => Ok(None),
    }
}

/// The same of a view.
#[tactic(auto, using(ess_core_nodes::proofs::NodeEquations::pure_seen_is))]
fn named_of(alloc: Global, name: &Text, seen: &Seen) -> Result<Option<Boxed<Node>>, NoMemory>
    ensures { IfOk result (λ o. option_map pure_node o ≡ named name.now (pure_seen seen.now)) }
{
    match field_children(&seen.repr) {
        None => Ok(None),
        Some(reprs) => match field_parts(seen.dom.get()) {
            None => Ok(None),
            Some((names, doms)) => {
                let cells = seen.cells.as_slice();
                child_of_field(alloc, name, names, reprs, doms, cells, seen.at.as_slice())
            }
        },
    }
}

/// The representations of a record's fields.
#[tactic(auto, using(ess_core::proofs::RepresentationEquations::pure_repr_is))]
fn field_children(repr: &Repr) -> Option<&[Repr]>
    ensures { option_map (λ rs. reprs_of (map pure_repr rs.now)) result ≡ field_children (pure_repr repr.now) }
{
    match repr.kind {
        ReprKind::Rec => Some(repr.children.as_slice()),
        _ => None,
    }
}

/// The names and domains of a record's fields.
fn field_parts(dom: &NodeDom) -> Option<(&[Text], &[NodeDom])>
    ensures { option_map (λ p. (p.0.now, pure_doms p.1.now)) result ≡ field_parts (pure_dom dom.now) }
{
    match dom {
        NodeDom::Record(names, doms) => Some((names.as_slice(), doms.as_slice())),
        _ => None,
    }
}

/// The child of the field of this name.
fn child_of_field(
    alloc: Global,
    name: &Text,
    names: &[Text],
    reprs: &[Repr],
    doms: &[NodeDom],
    cells: &[Text],
    at: &[Node],
) -> Result<Option<Boxed<Node>>, NoMemory>
    ensures { IfOk result (λ o. option_map pure_node o
        ≡ child_of_field name.now names.now (reprs_of (map pure_repr reprs.now)) (pure_doms doms.now) cells.now (pure_nodes at.now)) }
{
    match names.split_first() {
        None => Ok(None),
        Some((field, names)) => match reprs.split_first() {
            None => Ok(None),
            Some((repr, reprs)) => match doms.split_first() {
                None => Ok(None),
                Some((dom, doms)) => {
                    if same_name(field, name) {
                        let child = first_child(alloc, repr, dom, cells, at)?;
                        return Ok(Some(child));
                    }
                    let cells = behind_child(repr, cells)?;
                    child_of_field(alloc, name, names, reprs, doms, cells, at)
                }
            },
        },
    }
}

/// Whether two names are equal.
fn same_name(a: &Text, b: &Text) -> bool
    ensures { result ≡ same_text a.now b.now }
{
    a.cmp(b) == Ordering::Equal
}

/// The view of the child whose tables come first.
fn first_child(
    alloc: Global,
    repr: &Repr,
    dom: &NodeDom,
    cells: &[Text],
    at: &[Node],
) -> Result<Boxed<Node>, NoMemory>
    ensures { IfOk result (λ n. pure_node n ≡ seen_ex (pure_repr repr.now) (pure_dom dom.now)
        (take (width_of (pure_repr repr.now)) cells.now) (pure_nodes at.now)) }
{
    let own = parted(cells, width(repr)?).0;
    let dom = dom.copy(alloc)?;
    view(alloc, repr, dom, own, at)
}

/// The tables behind those of the child whose tables come first.
fn behind_child<'a>(repr: &Repr, cells: &'a [Text]) -> Result<&'a [Text], NoMemory>
    ensures { IfOk result (λ r. r.now ≡ drop (width_of (pure_repr repr.now)) cells.now) }
{
    Ok(parted(cells, width(repr)?).1)
}

/// So many tables from the first one on, as far as there are that many, and those behind.
#[tactic(auto, using(std::proofs::lemmas::List::take_min, std::proofs::lemmas::List::drop_min))]
fn parted(cells: &[Text], count: usize) -> (&[Text], &[Text])
    ensures front { result.0.now ≡ take count cells.now }
    ensures rest { result.1.now ≡ drop count cells.now }
{
    cells.split_at(count.min(cells.len()))
}
