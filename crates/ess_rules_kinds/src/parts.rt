//! Views by their parts.
ghost use Rattle.std.specs.Prelude.{◌≡◌, option_map};
ghost use Rattle.ess_core.specs.TreeViews.{pure_repr};
ghost use Rattle.ess_core_nodes.specs.NodeViews.{pure_node, pure_seen};
ghost use Rattle.ess_rules_kinds.specs.ViewParts.{leaf_kind, one_child, only_table, two_tables, leaf, nested, pair_leaf};
ghost use Rattle.ess_rules_kinds.specs.CodeParts.{pure_leaf, pure_nested, pure_pair};

use ess_core::{Repr, ReprKind};
use ess_core_nodes::{Node, NodeDom, Seen};
use ess_rows::Text;

/// A view over one table, without children.
#[derive(Clone, Copy)]
pub struct Leaf<'a> {
    /// How it is kept.
    pub kind: ReprKind,
    /// Its domain.
    pub dom: &'a NodeDom,
    /// Its table.
    pub table: &'a Text,
    /// Its index list.
    pub at: &'a [Node],
}

/// A view with one child.
#[derive(Clone, Copy)]
pub struct Nested<'a> {
    /// How it is kept.
    pub kind: ReprKind,
    /// How its child is kept.
    pub child: &'a Repr,
    /// Its domain.
    pub dom: &'a NodeDom,
    /// Its tables.
    pub cells: &'a [Text],
    /// Its index list.
    pub at: &'a [Node],
}

/// A view over two tables, without children.
#[derive(Clone, Copy)]
pub struct Pair<'a> {
    /// How it is kept.
    pub kind: ReprKind,
    /// Its domain.
    pub dom: &'a NodeDom,
    /// Its first table.
    pub first: &'a Text,
    /// Its second table.
    pub second: &'a Text,
    /// Its index list.
    pub at: &'a [Node],
}

/// The kind of a representation without children. Nothing of one with children.
#[tactic(auto, using(ess_core::proofs::RepresentationEquations::pure_repr_is))]
pub fn leaf_kind(repr: &Repr) -> Option<ReprKind>
    ensures { result ≡ leaf_kind (pure_repr repr.now) }
{
    match repr.children.as_slice().split_first() {
        None => Some(repr.kind),
        Some(_) => None,
    }
}

/// The kind of a representation with one child, and the child.
#[tactic(auto, using(ess_core::proofs::RepresentationEquations::pure_repr_is))]
fn one_child(repr: &Repr) -> Option<(ReprKind, &Repr)>
    ensures { option_map (λ p. (p.0, pure_repr p.1.now)) result ≡ one_child (pure_repr repr.now) }
{
    match repr.children.as_slice().split_first() {
        None => None,
        Some((child, rest)) => match rest.split_first() {
            None => Some((repr.kind, child)),
            Some(_) => None,
        },
    }
}

/// The only table.
fn only_table(cells: &[Text]) -> Option<&Text>
    ensures { option_map (λ t. t.now) result ≡ only_table cells.now }
{
    match cells.split_first() {
        None => None,
        Some((table, rest)) => match rest.split_first() {
            None => Some(table),
            Some(_) => None,
        },
    }
}

/// The parts of a view over one table without children. Nothing for another tree.
pub fn leaf_parts(node: &Node) -> Option<Leaf<'_>>
    ensures { option_map pure_leaf result ≡ leaf (pure_node node.now) }
{
    match node {
        Node::Seen(seen) => leaf_of(seen.get()),
        _ => None,
    }
}

/// The same of a view.
#[tactic(auto, using(ess_core_nodes::proofs::NodeEquations::pure_seen_is))]
fn leaf_of(seen: &Seen) -> Option<Leaf<'_>>
    ensures { option_map pure_leaf result ≡ leaf (pure_seen seen.now) }
{
    match leaf_kind(&seen.repr) {
        None => None,
        Some(kind) => match only_table(seen.cells.as_slice()) {
            None => None,
            Some(table) => Some(Leaf {
                kind,
                dom: seen.dom.get(),
                table,
                at: seen.at.as_slice(),
            }),
        },
    }
}

/// The parts of a view with one child. Nothing for another tree.
pub fn nested_parts(node: &Node) -> Option<Nested<'_>>
    ensures { option_map pure_nested result ≡ nested (pure_node node.now) }
{
    match node {
        Node::Seen(seen) => nested_of(seen.get()),
        _ => None,
    }
}

/// The same of a view.
#[tactic(auto, using(ess_core_nodes::proofs::NodeEquations::pure_seen_is))]
fn nested_of(seen: &Seen) -> Option<Nested<'_>>
    ensures { option_map pure_nested result ≡ nested (pure_seen seen.now) }
{
    match one_child(&seen.repr) {
        None => None,
        Some((kind, child)) => Some(Nested {
            kind,
            child,
            dom: seen.dom.get(),
            cells: seen.cells.as_slice(),
            at: seen.at.as_slice(),
        }),
    }
}

/// The only two tables.
fn two_tables(cells: &[Text]) -> Option<(&Text, &Text)>
    ensures { option_map (λ p. (p.0.now, p.1.now)) result ≡ two_tables cells.now }
{
    match cells.split_first() {
        None => None,
        Some((first, rest)) => match rest.split_first() {
            None => None,
            Some((second, more)) => match more.split_first() {
                None => Some((first, second)),
                Some(_) => None,
            },
        },
    }
}

/// The parts of a view over two tables without children. Nothing for another tree.
pub fn pair_parts(node: &Node) -> Option<Pair<'_>>
    ensures { option_map pure_pair result ≡ pair_leaf (pure_node node.now) }
{
    match node {
        Node::Seen(seen) => pair_of(seen.get()),
        _ => None,
    }
}

/// The same of a view.
#[tactic(auto, using(ess_core_nodes::proofs::NodeEquations::pure_seen_is))]
fn pair_of(seen: &Seen) -> Option<Pair<'_>>
    ensures { option_map pure_pair result ≡ pair_leaf (pure_seen seen.now) }
{
    match leaf_kind(&seen.repr) {
        None => None,
        Some(kind) => match two_tables(seen.cells.as_slice()) {
            None => None,
            Some((first, second)) => Some(Pair {
                kind,
                dom: seen.dom.get(),
                first,
                second,
                at: seen.at.as_slice(),
            }),
        },
    }
}
