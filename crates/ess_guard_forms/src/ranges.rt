//! Ranges of numbers, and which terms are sure to lie in a domain.
ghost use Rattle.std.specs.Prelude.{◌≡◌, Some, map, option_map};
ghost use Rattle.std.specs.Option.{option_copied};
ghost use Rattle.ess_semantics.specs.Trees.{int_dom};
ghost use Rattle.ess_core_nodes.specs.NodeViews.{pure_node, pure_nodes, pure_dom, pure_ends};
ghost use Rattle.ess_guard_laws.specs.Origins.{holds_range as range_holds, same_bounds as are_same_bounds, same_ends as are_same_ends};
ghost use Rattle.ess_guard_laws.specs.Origins.{lies_within as is_within, comes_from as is_from, is_sure as is_sure_in};
ghost use Rattle.ess_guard_laws.specs.Conditions.{has_size as has_this_size};
ghost use Rattle.ess_guard_forms.specs.KnownNames.{pure_origin, pure_known};
ghost use Rattle.ess_guard_forms.specs.PartForms.{two_bounds as both_bounds, one_range as the_range, two_numbers as both_numbers};
ghost use Rattle.ess_guard_forms.specs.PartForms.{size_is as is_size, range_within};

use crate::bounds::same_bound;
use crate::known::{KnownName, known_of};
use crate::operands::pair_in;
use ess_core_nodes::{Ends, Node, NodeDom};

/// The bounds of a domain of one range with both.
pub fn one_range(dom: &NodeDom) -> Option<(&Node, &Node)>
    ensures { option_map (λ p. (pure_node p.0.now, pure_node p.1.now)) result ≡ the_range (pure_dom dom.now) }
{
    match dom {
        NodeDom::Int(ends, bounds) => two_bounds(ends.as_slice(), bounds.as_slice()),
        _ => None,
    }
}

/// The two bounds of one range.
fn two_bounds<'a>(ends: &[Ends], bounds: &'a [Node]) -> Option<(&'a Node, &'a Node)>
    ensures { option_map (λ p. (pure_node p.0.now, pure_node p.1.now)) result ≡ both_bounds (map pure_ends ends.now) (pure_nodes bounds.now) }
{
    match ends.split_first() {
        Some((Ends::Both, rest)) => match rest.split_first() {
            None => pair_in(bounds),
            Some(_) => None,
        },
        _ => None,
    }
}

/// The two numbers of a domain of one range of numbers.
#[tactic(auto, using(ess_core_nodes::proofs::NodeEquations::pure_seen_is))]
fn number_range(dom: &NodeDom) -> Option<(i64, i64)>
    ensures { result ≡ both_numbers (the_range (pure_dom dom.now)) }
{
    match one_range(dom) {
        Some((Node::Number(low), Node::Number(high))) => Some((*low, *high)),
        _ => None,
    }
}

/// The two numbers of one range of numbers.
#[tactic(auto, using(ess_core_nodes::proofs::NodeEquations::pure_seen_is))]
fn number_bounds(ends: &[Ends], bounds: &[Node]) -> Option<(i64, i64)>
    ensures { result ≡ both_numbers (both_bounds (map pure_ends ends.now) (pure_nodes bounds.now)) }
{
    match two_bounds(ends, bounds) {
        Some((Node::Number(low), Node::Number(high))) => Some((*low, *high)),
        _ => None,
    }
}

/// Whether the range of numbers from c to d holds the one from a to b.
fn holds_range(c: i64, d: i64, a: i64, b: i64) -> bool
    ensures { result ≡ range_holds c d a b }
{
    c <= a && b <= d
}

/// Whether several bounds are those others by their forms.
fn same_bounds(bounds: &[Node], others: &[Node]) -> bool
    ensures { result ≡ are_same_bounds (pure_nodes bounds.now) (pure_nodes others.now) }
{
    match bounds.split_first() {
        None => match others.split_first() {
            None => true,
            Some(_) => false,
        },
        Some((bound, rest)) => match others.split_first() {
            None => false,
            Some((other, more)) => same_bound(bound, other) && same_bounds(rest, more),
        },
    }
}

/// Whether two ranges have one form.
fn same_ends(ends: &[Ends], others: &[Ends]) -> bool
    ensures { result ≡ are_same_ends (map pure_ends ends.now) (map pure_ends others.now) }
{
    match ends.split_first() {
        None => match others.split_first() {
            None => true,
            Some(_) => false,
        },
        Some((end, rest)) => match others.split_first() {
            None => false,
            Some((other, more)) => match (*end, *other) {
                (Ends::One, Ends::One) => same_ends(rest, more),
                (Ends::Both, Ends::Both) => same_ends(rest, more),
                (Ends::Low, Ends::Low) => same_ends(rest, more),
                (Ends::High, Ends::High) => same_ends(rest, more),
                (_, _) => false,
            },
        },
    }
}

/// Whether two ranges of numbers are given, and the second holds the first; else what is said.
fn range_lies(first: Option<(i64, i64)>, second: Option<(i64, i64)>, said: bool) -> bool
    ensures { result ≡ range_within first second said }
{
    match first {
        Some((a, b)) => match second {
            Some((c, d)) => holds_range(c, d, a, b),
            None => said,
        },
        None => said,
    }
}

/// Whether ranges with these bounds are sure to hold all numbers of those.
#[tactic(auto, using(crate::proofs::RangeForms::within_ranges))]
fn ranges_lie(ends: &[Ends], bounds: &[Node], others: &[Ends], more: &[Node]) -> bool
    ensures { result ≡ is_within (int_dom (map pure_ends ends.now) (pure_nodes bounds.now))
        (int_dom (map pure_ends others.now) (pure_nodes more.now)) }
{
    let said = same_ends(ends, others) && same_bounds(bounds, more);
    range_lies(
        number_bounds(ends, bounds),
        number_bounds(others, more),
        said,
    )
}

/// Whether the second domain is sure to hold all members of the first, by their forms alone.
fn lies_within(dom: &NodeDom, other: &NodeDom) -> bool
    ensures { result ≡ is_within (pure_dom dom.now) (pure_dom other.now) }
{
    match dom {
        NodeDom::Bool => match other {
            NodeDom::Bool => true,
            _ => false,
        },
        NodeDom::Int(ends, bounds) => match other {
            NodeDom::Int(others, more) => {
                ranges_lie(
                    ends.as_slice(),
                    bounds.as_slice(),
                    others.as_slice(),
                    more.as_slice(),
                )
            }
            _ => false,
        },
        _ => false,
    }
}

/// Whether a name of which this is known is sure to lie in the domain.
fn comes_from(known: Option<&KnownName>, dom: &NodeDom) -> bool
    ensures { result ≡ is_from (option_map (λ b. pure_origin b.dom) (option_copied known.entry)) (pure_dom dom.now) }
{
    match known {
        None => false,
        Some(entry) => match &entry.dom {
            None => false,
            Some(from) => lies_within(from.get(), dom),
        },
    }
}

/// Whether the term is sure to be a member of the domain, by its form alone.
#[tactic(auto, using(crate::proofs::RangeForms::sure_number, ess_core_nodes::proofs::NodeEquations::pure_seen_is))]
pub fn is_sure(known: &[KnownName], node: &Node, dom: &NodeDom) -> bool
    ensures { result ≡ is_sure_in (pure_known known.now) (pure_node node.now) (pure_dom dom.now) }
{
    match node {
        Node::Number(number) => match number_range(dom) {
            Some((low, high)) => holds_range(low, high, *number, *number),
            None => false,
        },
        Node::Name(name) => comes_from(known_of(known, name), dom),
        _ => false,
    }
}

/// Whether a range from one number to another has this many.
#[tactic(auto, using(crate::proofs::RangeForms::size_none, crate::proofs::RangeForms::size_there))]
fn spans(low: i64, high: i64, count: usize) -> bool
    ensures { result ≡ is_size (Some (low, high)) count }
{
    if count == 0 {
        return false;
    }
    let more = count - 1;
    high as i128 == low as i128 + more as i128
}

/// Whether the domain is a range of this many numbers, by its form.
#[tactic(auto, using(crate::proofs::RangeForms::size_of_range))]
pub fn has_size(dom: &NodeDom, count: usize) -> bool
    ensures { result ≡ has_this_size (pure_dom dom.now) count }
{
    match number_range(dom) {
        Some((low, high)) => spans(low, high, count),
        None => false,
    }
}
