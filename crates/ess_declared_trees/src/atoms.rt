//! The domains of axes over atoms, and of cells that hold them.
ghost use Rattle.std.specs.Prelude.{◌≡◌, ◌&&◌, ◌∷◌, IfOk, map};
ghost use Rattle.ess_semantics.specs.Trees.{one_value, more_exs, no_exs, int_dom};
ghost use Rattle.ess_core_nodes.specs.NodeViews.{pure_dom, pure_ends, pure_nodes};
ghost use Rattle.ess_repr_declare_laws.specs.SizeTerms.{zero_ex, one_ex, listed_ex};
ghost use Rattle.ess_repr_declare_laws.specs.DeclaredTrees as pure;
ghost use Rattle.ess_size_terms.specs.RangeForms.{is_span};
ghost use Rattle.ess_declared_trees.specs.Dummies.{is_pair, dummy_beside};

use crate::domains::{upto_listed, zero_and_one};
use ess_core_nodes::{Ends, Node, NodeDom, copy_nodes};
use ess_node_building::{number, two};
use ess_rows::{Boxed, NoMemory, Row};
use ess_size_terms::{dummy, listed};
use ess_structure_terms::with_index;
use std::alloc::Global;

/// An axis over an atom: bool is `int(0..1)`, a type of n values is `int(1..n)`.
pub(crate) fn axis_dom(alloc: Global, dom: &NodeDom) -> Result<Boxed<NodeDom>, NoMemory>
    ensures { IfOk result (λ d. pure_dom d ≡ pure.axis_dom (pure_dom dom.now)) }
{
    match dom {
        NodeDom::Bool => zero_and_one(alloc),
        NodeDom::Name(_) => upto_listed(alloc, dom),
        _ => dom.copy(alloc),
    }
}

/// The cell of an atom: bool stays one.
fn cell_dom(alloc: Global, dom: &NodeDom) -> Result<Boxed<NodeDom>, NoMemory>
    ensures { IfOk result (λ d. pure_dom d ≡ pure.cell_dom (pure_dom dom.now)) }
{
    match dom {
        NodeDom::Name(_) => upto_listed(alloc, dom),
        _ => dom.copy(alloc),
    }
}

/// The cell of an atom, which can be out of use or not.
pub(crate) fn cell_in_use(
    alloc: Global,
    out: bool,
    dom: &NodeDom,
) -> Result<Boxed<NodeDom>, NoMemory>
    ensures { IfOk result (λ d. pure_dom d ≡ pure.widened_if out (pure.cell_dom (pure_dom dom.now))) }
{
    let cell = cell_dom(alloc, dom)?;
    widened_if(alloc, out, cell)
}

/// Widened where the cell can be out of use.
pub(crate) fn widened_if(
    alloc: Global,
    out: bool,
    dom: Boxed<NodeDom>,
) -> Result<Boxed<NodeDom>, NoMemory>
    ensures { IfOk result (λ d. pure_dom d ≡ pure.widened_if out (pure_dom dom)) }
{
    if out {
        return widened(alloc, dom.get());
    }
    Ok(dom)
}

/// A copy with 0 as one more member, where the domain is one of numbers in ranges.
fn widened(alloc: Global, dom: &NodeDom) -> Result<Boxed<NodeDom>, NoMemory>
    ensures { IfOk result (λ d. pure_dom d ≡ pure.widened_dom (pure_dom dom.now)) }
{
    match dom {
        NodeDom::Int(ends, bounds) => widened_int(alloc, ends.as_slice(), bounds.as_slice()),
        _ => dom.copy(alloc),
    }
}

/// The numbers in copies of these ranges, with 0 as one more, where there are ranges.
fn widened_int(alloc: Global, ends: &[Ends], bounds: &[Node]) -> Result<Boxed<NodeDom>, NoMemory>
    ensures { IfOk result (λ d. pure_dom d ≡ pure.widened_dom (int_dom (map pure_ends ends.now) (pure_nodes bounds.now))) }
{
    match ends.split_first() {
        None => ranges_copied(alloc, ends, bounds),
        Some(_) => with_zero(alloc, ends, bounds),
    }
}

/// The numbers in copies of these ranges.
fn ranges_copied(alloc: Global, ends: &[Ends], bounds: &[Node]) -> Result<Boxed<NodeDom>, NoMemory>
    ensures { IfOk result (λ d. pure_dom d ≡ int_dom (map pure_ends ends.now) (pure_nodes bounds.now)) }
{
    let bounds = copy_nodes(alloc, bounds)?;
    let ends = Row::from_slice(alloc, ends)?;
    Boxed::new(alloc, NodeDom::Int(ends, bounds))
}

/// 0, and the numbers in copies of these ranges.
fn with_zero(alloc: Global, ends: &[Ends], bounds: &[Node]) -> Result<Boxed<NodeDom>, NoMemory>
    ensures { IfOk result (λ d. pure_dom d ≡ int_dom (one_value ∷ map pure_ends ends.now) (more_exs zero_ex (pure_nodes bounds.now))) }
{
    let zero = number(alloc, 0)?;
    let mut bounds = copy_nodes(alloc, bounds)?;
    bounds.insert(0, zero.into_inner())?;
    let mut ends = Row::from_slice(alloc, ends)?;
    ends.insert(0, Ends::One)?;
    Boxed::new(alloc, NodeDom::Int(ends, bounds))
}

/// An atom with its dummy as one more member.
#[tactic(auto, using(crate::proofs::DummyLaws::dummy_there, crate::proofs::DummyLaws::dummy_missing))]
pub(crate) fn with_dummy(alloc: Global, dom: &NodeDom) -> Result<Boxed<NodeDom>, NoMemory>
    ensures { IfOk result (λ d. pure_dom d ≡ pure.with_dummy (pure_dom dom.now)) }
{
    match dom {
        NodeDom::Int(ends, bounds) => {
            if has_dummy(ends.as_slice(), bounds.as_slice()) {
                dummy_behind(alloc, dom, bounds.as_slice())
            } else {
                dom.copy(alloc)
            }
        }
        NodeDom::Name(_) => type_and_dummy(alloc, dom),
        _ => dom.copy(alloc),
    }
}

/// Whether numbers in these ranges have a dummy: there is one range, with both of its bounds.
fn has_dummy(ends: &[Ends], bounds: &[Node]) -> bool
    ensures { result ≡ (is_span (map pure_ends ends.now) && is_pair (pure_nodes bounds.now)) }
{
    is_one_span(ends) && are_two(bounds)
}

/// Whether these are one range with both bounds.
fn is_one_span(ends: &[Ends]) -> bool
    ensures { result ≡ is_span (map pure_ends ends.now) }
{
    match ends.split_first() {
        Some((Ends::Both, rest)) => match rest.split_first() {
            None => true,
            Some(_) => false,
        },
        _ => false,
    }
}

/// Whether there are two bounds.
fn are_two(bounds: &[Node]) -> bool
    ensures { result ≡ is_pair (pure_nodes bounds.now) }
{
    match bounds.split_first() {
        None => false,
        Some((_, rest)) => match rest.split_first() {
            None => false,
            Some((_, more)) => match more.split_first() {
                None => true,
                Some(_) => false,
            },
        },
    }
}

/// From one of the bounds to the other one, and the dummy of the domain.
fn dummy_behind(alloc: Global, dom: &NodeDom, bounds: &[Node]) -> Result<Boxed<NodeDom>, NoMemory>
    ensures { IfOk result (λ d. pure_dom d ≡ dummy_beside (pure_nodes bounds.now) (pure_dom dom.now)) }
{
    let last = dummy(alloc, dom)?;
    let bounds = with_index(alloc, bounds, last)?;
    let ends = Row::from_array(alloc, [Ends::Both, Ends::One])?;
    Boxed::new(alloc, NodeDom::Int(ends, bounds))
}

/// The numbers of the values of a type, and its dummy.
fn type_and_dummy(alloc: Global, dom: &NodeDom) -> Result<Boxed<NodeDom>, NoMemory>
    ensures { IfOk result (λ d. pure_dom d ≡ dummy_beside (more_exs one_ex (more_exs (listed_ex (pure_dom dom.now)) no_exs))
        (pure_dom dom.now)) }
{
    let one = number(alloc, 1)?;
    let members = listed(alloc, dom)?;
    let bounds = two(alloc, one, members)?;
    dummy_behind(alloc, dom, bounds.as_slice())
}
