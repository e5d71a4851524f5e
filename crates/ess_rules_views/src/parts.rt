//! The parts of views that have a form.
ghost use Rattle.std.specs.Prelude.{◌≡◌, option_map};
ghost use Rattle.ess_core.specs.TreeViews.{pure_repr};
ghost use Rattle.ess_core_nodes.specs.NodeViews.{pure_node, pure_nodes, pure_seen};
ghost use Rattle.ess_rules_views.specs.ViewForms.{leaf_kind, one_child, tuple_items, a_size, applied, only_text, one_table};
ghost use Rattle.ess_rules_views.specs.ViewForms.{by_argument, in_slots};
ghost use Rattle.ess_rules_views.specs.CodeViews.{pure_table, pure_function, pure_slots};

use ess_core::{Fun, Op1, Repr, ReprKind};
use ess_core_nodes::{Node, NodeDom, Op, Seen};
use ess_rows::Text;
use ess_rules_forms::{only_in, pair_in};

/// A view over one table without children.
#[derive(Clone, Copy)]
pub(crate) struct TableParts<'a> {
    pub kind: ReprKind,
    pub dom: &'a NodeDom,
    pub table: &'a Text,
    pub at: &'a [Node],
}

/// A view of a function with one child.
#[derive(Clone, Copy)]
pub(crate) struct FunctionParts<'a> {
    pub kind: ReprKind,
    pub child: &'a Repr,
    pub first: &'a NodeDom,
    pub last: &'a NodeDom,
    pub cells: &'a [Text],
    pub at: &'a [Node],
}

/// A view of a set with one child.
#[derive(Clone, Copy)]
pub(crate) struct SlotParts<'a> {
    pub kind: ReprKind,
    pub cells: &'a [Text],
    pub at: &'a [Node],
}

/// The kind of a representation without children.
#[tactic(auto, using(ess_core::proofs::RepresentationEquations::pure_repr_is))]
fn leaf_kind(repr: &Repr) -> Option<ReprKind>
    ensures { result ≡ leaf_kind (pure_repr repr.now) }
{
    match repr.children.as_slice().split_first() {
        None => Some(repr.kind),
        Some(_) => None,
    }
}

/// The kind of a representation with one child, and the child.
#[tactic(auto, using(ess_core::proofs::RepresentationEquations::pure_repr_is))]
fn one_child(repr: &Repr) -> Option<(ReprKind, &Repr)>
    ensures { option_map (λ p. (p.0, pure_repr p.1.now)) result ≡ one_child (pure_repr repr.now) }
{
    match repr.children.as_slice().split_first() {
        None => None,
        Some((child, rest)) => match rest.split_first() {
            None => Some((repr.kind, child)),
            Some(_) => None,
        },
    }
}

/// The only text.
fn only_text(texts: &[Text]) -> Option<&Text>
    ensures { option_map (λ t. t.now) result ≡ only_text texts.now }
{
    match texts.split_first() {
        None => None,
        Some((text, rest)) => match rest.split_first() {
            None => Some(text),
            Some(_) => None,
        },
    }
}

/// The items of a tuple.
#[tactic(auto, using(ess_core_nodes::proofs::NodeEquations::pure_seen_is))]
pub(crate) fn tuple_items(node: &Node) -> Option<&[Node]>
    ensures { option_map (λ es. pure_nodes es.now) result ≡ tuple_items (pure_node node.now) }
{
    match node {
        Node::Op(false, Op::Tuple, items) => Some(items.as_slice()),
        _ => None,
    }
}

/// The container whose size a term is.
#[tactic(auto, using(ess_core_nodes::proofs::NodeEquations::pure_seen_is, crate::proofs::PartLemmas::size_of_only))]
pub(crate) fn a_size(node: &Node) -> Option<&Node>
    ensures { option_map (λ a. pure_node a.now) result ≡ a_size (pure_node node.now) }
{
    match node {
        Node::Op(false, Op::Unary(Op1::Bar), operands) => only_in(operands.as_slice()),
        _ => None,
    }
}

/// The function and the argument of an application or of `image`, and whether it is Boolean.
#[tactic(auto, using(ess_core_nodes::proofs::NodeEquations::pure_seen_is, crate::proofs::PartLemmas::application_of_both, crate::proofs::PartLemmas::image_of_both))]
pub(crate) fn applied(node: &Node) -> Option<(bool, (&Node, &Node))>
    ensures { option_map (λ p. (p.0, (pure_node p.1.0.now, pure_node p.1.1.now))) result ≡ applied (pure_node node.now) }
{
    match node {
        Node::Op(mark, Op::Apply, operands) => match pair_in(operands.as_slice()) {
            Some(pair) => Some((*mark, pair)),
            None => None,
        },
        Node::Op(mark, Op::Word(Fun::Image), operands) => match pair_in(operands.as_slice()) {
            Some(pair) => Some((*mark, pair)),
            None => None,
        },
        _ => None,
    }
}

/// The parts of a view over one table without children.
pub(crate) fn one_table(node: &Node) -> Option<TableParts<'_>>
    ensures { option_map pure_table result ≡ one_table (pure_node node.now) }
{
    match node {
        Node::Seen(seen) => table_parts(seen.get()),
        _ => None,
    }
}

/// The same of a view.
#[tactic(auto, using(ess_core_nodes::proofs::NodeEquations::pure_seen_is))]
fn table_parts(seen: &Seen) -> Option<TableParts<'_>>
    ensures { option_map pure_table result ≡ one_table (pure_seen seen.now) }
{
    match leaf_kind(&seen.repr) {
        None => None,
        Some(kind) => match only_text(seen.cells.as_slice()) {
            None => None,
            Some(table) => Some(TableParts {
                kind,
                dom: seen.dom.get(),
                table,
                at: seen.at.as_slice(),
            }),
        },
    }
}

/// The parts of a view of a function with one child.
pub(crate) fn by_argument(node: &Node) -> Option<FunctionParts<'_>>
    ensures { option_map pure_function result ≡ by_argument (pure_node node.now) }
{
    match node {
        Node::Seen(seen) => function_parts(seen.get()),
        _ => None,
    }
}

/// The same of a view.
#[tactic(auto, using(ess_core_nodes::proofs::NodeEquations::pure_seen_is))]
fn function_parts(seen: &Seen) -> Option<FunctionParts<'_>>
    ensures { option_map pure_function result ≡ by_argument (pure_seen seen.now) }
{
    match one_child(&seen.repr) {
        None => None,
        Some((kind, child)) => match seen.dom.get() {
            NodeDom::Function(_, _, first, last) => Some(FunctionParts {
                kind,
                child,
                first: first.get(),
                last: last.get(),
                cells: seen.cells.as_slice(),
                at: seen.at.as_slice(),
            }),
            _ => None,
        },
    }
}

/// The parts of a view of a set with one child.
pub(crate) fn in_slots(node: &Node) -> Option<SlotParts<'_>>
    ensures { option_map pure_slots result ≡ in_slots (pure_node node.now) }
{
    match node {
        Node::Seen(seen) => slot_parts(seen.get()),
        _ => None,
    }
}

/// The same of a view.
#[tactic(auto, using(ess_core_nodes::proofs::NodeEquations::pure_seen_is))]
fn slot_parts(seen: &Seen) -> Option<SlotParts<'_>>
    ensures { option_map pure_slots result ≡ in_slots (pure_seen seen.now) }
{
    match one_child(&seen.repr) {
        None => None,
        Some((kind, _)) => match seen.dom.get() {
            NodeDom::Set(_, _, _) => Some(SlotParts {
                kind,
                cells: seen.cells.as_slice(),
                at: seen.at.as_slice(),
            }),
            _ => None,
        },
    }
}
