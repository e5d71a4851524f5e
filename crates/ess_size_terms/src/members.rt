//! Atoms: whether a term is a member, and the dummy, a number above all members.
ghost use Rattle.std.specs.Prelude.{◌≡◌, IfOk, map};
ghost use Rattle.ess_semantics.specs.Trees.{int_dom, name_dom};
ghost use Rattle.ess_core_nodes.specs.NodeViews.{pure_node, pure_nodes, pure_dom, pure_ends};
ghost use Rattle.ess_repr_laws.specs.StructureParts.{and_ex, or_ex, le_ex};
ghost use Rattle.ess_repr_declare_laws.specs.SizeTerms.{dummy_ex, in_ranges_ex, inside_ex};

use crate::atoms::{bound_or_0, two_bounds};
use crate::terms::{listed, listed_name, next};
use ess_core::Op2;
use ess_core_nodes::{Ends, Node, NodeDom};
use ess_node_building::{binary, number, truth};
use ess_rows::{Boxed, NoMemory, Text};
use std::alloc::Global;

/// One above the last member of an atom that has a dummy, a named type or an int domain of one range with both bounds; 0 for any other
/// domain. `NoMemory` where there is no room for it.
pub fn dummy(alloc: Global, dom: &NodeDom) -> Result<Boxed<Node>, NoMemory>
    ensures { IfOk result (λ n. pure_node n ≡ dummy_ex (pure_dom dom.now)) }
{
    match dom {
        NodeDom::Int(ends, bounds) => dummy_of_int(alloc, ends.as_slice(), bounds.as_slice()),
        NodeDom::Name(_) => {
            let members = listed(alloc, dom)?;
            next(alloc, members)
        }
        _ => number(alloc, 0),
    }
}

/// The dummy of an int domain of these ranges.
#[tactic(auto, using(crate::proofs::RangeSteps::dummy_there, crate::proofs::RangeSteps::dummy_none))]
fn dummy_of_int(alloc: Global, ends: &[Ends], bounds: &[Node]) -> Result<Boxed<Node>, NoMemory>
    ensures { IfOk result (λ n. pure_node n ≡ dummy_ex (int_dom (map pure_ends ends.now) (pure_nodes bounds.now))) }
{
    match two_bounds(ends, bounds) {
        Some((_, high)) => {
            let high = bound_or_0(alloc, high)?;
            next(alloc, high)
        }
        None => number(alloc, 0),
    }
}

/// That the term is a member of an atom, as a cell of it: always of bool, of an int domain without ranges, and of a domain that is no
/// atom. `NoMemory` where there is no room for it.
pub fn inside(alloc: Global, dom: &NodeDom, term: &Node) -> Result<Boxed<Node>, NoMemory>
    ensures { IfOk result (λ n. pure_node n ≡ inside_ex (pure_dom dom.now) (pure_node term.now)) }
{
    match dom {
        NodeDom::Int(ends, bounds) => inside_int(alloc, ends.as_slice(), bounds.as_slice(), term),
        NodeDom::Name(name) => inside_name(alloc, name, term),
        _ => truth(alloc, true),
    }
}

/// That the term is a member of an int domain of these ranges.
fn inside_int(
    alloc: Global,
    ends: &[Ends],
    bounds: &[Node],
    term: &Node,
) -> Result<Boxed<Node>, NoMemory>
    ensures { IfOk result (λ n. pure_node n ≡ inside_ex (int_dom (map pure_ends ends.now) (pure_nodes bounds.now)) (pure_node term.now)) }
{
    match ends.split_first() {
        None => truth(alloc, true),
        Some(_) => in_ranges(alloc, ends, bounds, term),
    }
}

/// That the term is the number of a value of a named type.
fn inside_name(alloc: Global, name: &Text, term: &Node) -> Result<Boxed<Node>, NoMemory>
    ensures { IfOk result (λ n. pure_node n ≡ inside_ex (name_dom name.now) (pure_node term.now)) }
{
    let last = listed_name(alloc, name)?;
    let above = at_most(alloc, term.copy(alloc)?, last)?;
    let one = number(alloc, 1)?;
    let below = at_most(alloc, one, term.copy(alloc)?)?;
    binary(alloc, true, Op2::And, below, above)
}

/// That the one term is at most the other one.
fn at_most(alloc: Global, low: Boxed<Node>, high: Boxed<Node>) -> Result<Boxed<Node>, NoMemory>
    ensures { IfOk result (λ n. pure_node n ≡ le_ex (pure_node low) (pure_node high)) }
{
    binary(alloc, true, Op2::Le, low, high)
}

/// That the one or the other one holds.
fn either(alloc: Global, first: Boxed<Node>, second: Boxed<Node>) -> Result<Boxed<Node>, NoMemory>
    ensures { IfOk result (λ n. pure_node n ≡ or_ex (pure_node first) (pure_node second)) }
{
    binary(alloc, true, Op2::Or, first, second)
}

/// That the term lies in one of the ranges.
fn in_ranges(
    alloc: Global,
    ends: &[Ends],
    bounds: &[Node],
    term: &Node,
) -> Result<Boxed<Node>, NoMemory>
    ensures { IfOk result (λ n. pure_node n ≡ in_ranges_ex (map pure_ends ends.now) (pure_nodes bounds.now) (pure_node term.now)) }
{
    let Some((end, rest)) = ends.split_first() else {
        return truth(alloc, false);
    };
    let Some((bound, more)) = bounds.split_first() else {
        return truth(alloc, false);
    };
    match end {
        Ends::One => {
            let here = binary(alloc, true, Op2::Eq, term.copy(alloc)?, bound.copy(alloc)?)?;
            either(alloc, here, in_ranges(alloc, rest, more, term)?)
        }
        Ends::Both => {
            let Some((high, more)) = more.split_first() else {
                return truth(alloc, false);
            };
            let here = lies_between(alloc, bound, high, term)?;
            either(alloc, here, in_ranges(alloc, rest, more, term)?)
        }
        Ends::Low => {
            let here = at_most(alloc, bound.copy(alloc)?, term.copy(alloc)?)?;
            either(alloc, here, in_ranges(alloc, rest, more, term)?)
        }
        Ends::High => {
            let here = at_most(alloc, term.copy(alloc)?, bound.copy(alloc)?)?;
            either(alloc, here, in_ranges(alloc, rest, more, term)?)
        }
    }
}

/// That the term lies between two bounds.
fn lies_between(
    alloc: Global,
    low: &Node,
    high: &Node,
    term: &Node,
) -> Result<Boxed<Node>, NoMemory>
    ensures { IfOk result (λ n. pure_node n ≡ and_ex (le_ex (pure_node low.now) (pure_node term.now)) (le_ex (pure_node term.now) (pure_node high.now))) }
{
    let below = at_most(alloc, low.copy(alloc)?, term.copy(alloc)?)?;
    let above = at_most(alloc, term.copy(alloc)?, high.copy(alloc)?)?;
    binary(alloc, true, Op2::And, below, above)
}
