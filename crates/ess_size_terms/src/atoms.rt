//! The ranges of int domains.
ghost use Rattle.std.specs.Prelude.{◌≡◌, map, option_map, IfOk};
ghost use Rattle.std.specs.List.{list_all};
ghost use Rattle.ess_semantics.specs.Kinds.{is_bounded as is_bounded_int, is_closed_end};
ghost use Rattle.ess_core_nodes.specs.NodeViews.{pure_node, pure_nodes, pure_dom, pure_ends};
ghost use Rattle.ess_repr_declare_laws.specs.SizeTerms.{lacks_bounds as has_no_bounds, is_missing as is_no_bound, bound_or_0 as the_bound_or_0};
ghost use Rattle.ess_size_terms.specs.RangeForms.{span_of, pair_of, is_span, is_single};

use ess_core_nodes::{Ends, Node, NodeDom};
use ess_node_building::number;
use ess_rows::{Boxed, NoMemory};
use std::alloc::Global;

/// Whether each range has both bounds.
fn are_closed(ends: &[Ends]) -> bool
    ensures { result ≡ list_all is_closed_end (map pure_ends ends.now) }
{
    match ends.split_first() {
        None => true,
        Some((Ends::One, rest)) => are_closed(rest),
        Some((Ends::Both, rest)) => are_closed(rest),
        Some((Ends::Low, _)) => false,
        Some((Ends::High, _)) => false,
    }
}

/// Whether an int domain of these ranges is finite: it has ranges, and each has its bounds.
pub fn is_bounded(ends: &[Ends]) -> bool
    ensures { result ≡ is_bounded_int (map pure_ends ends.now) }
{
    match ends.split_first() {
        None => false,
        Some(_) => are_closed(ends),
    }
}

/// Whether these are one range of one value.
pub(crate) fn is_one_value(ends: &[Ends]) -> bool
    ensures { result ≡ is_single (map pure_ends ends.now) }
{
    match ends.split_first() {
        Some((Ends::One, rest)) => match rest.split_first() {
            None => true,
            Some(_) => false,
        },
        _ => false,
    }
}

/// Whether these are one range with both bounds.
fn is_one_span(ends: &[Ends]) -> bool
    ensures { result ≡ is_span (map pure_ends ends.now) }
{
    match ends.split_first() {
        Some((Ends::Both, rest)) => match rest.split_first() {
            None => true,
            Some(_) => false,
        },
        _ => false,
    }
}

/// The two bounds of one range, where there are no others.
pub(crate) fn two_bounds<'a>(ends: &[Ends], bounds: &'a [Node]) -> Option<(&'a Node, &'a Node)>
    ensures { option_map (λ p. (pure_node p.0.now, pure_node p.1.now)) result ≡ span_of (map pure_ends ends.now) (pure_nodes bounds.now) }
{
    if is_one_span(ends) {
        pair_in(bounds)
    } else {
        None
    }
}

/// Two bounds, where there are no others.
fn pair_in(bounds: &[Node]) -> Option<(&Node, &Node)>
    ensures { option_map (λ p. (pure_node p.0.now, pure_node p.1.now)) result ≡ pair_of (pure_nodes bounds.now) }
{
    match bounds.split_first() {
        None => None,
        Some((low, rest)) => match rest.split_first() {
            None => None,
            Some((high, more)) => match more.split_first() {
                None => Some((low, high)),
                Some(_) => None,
            },
        },
    }
}

/// Whether the domain is an int domain whose one range says that it has both bounds, and has none.
#[tactic(auto, using(crate::proofs::RangeSteps::lacks_both, crate::proofs::RangeSteps::lacks_none))]
fn lacks_bounds(dom: &NodeDom) -> bool
    ensures { result ≡ has_no_bounds (pure_dom dom.now) }
{
    match dom {
        NodeDom::Int(ends, bounds) => match bounds.as_slice().split_first() {
            None => is_one_span(ends.as_slice()),
            Some(_) => false,
        },
        _ => false,
    }
}

/// Whether the term stands for a bound of a range without bounds.
#[tactic(auto, using(ess_core_nodes::proofs::NodeEquations::pure_seen_is))]
fn is_missing(node: &Node) -> bool
    ensures { result ≡ is_no_bound (pure_node node.now) }
{
    match node {
        Node::Seen(seen) => lacks_bounds(seen.get().dom.get()),
        _ => false,
    }
}

/// A copy of a bound, or 0 for a missing one.
pub(crate) fn bound_or_0(alloc: Global, node: &Node) -> Result<Boxed<Node>, NoMemory>
    ensures { IfOk result (λ n. pure_node n ≡ the_bound_or_0 (pure_node node.now)) }
{
    if is_missing(node) {
        number(alloc, 0)
    } else {
        node.copy(alloc)
    }
}
