//! Bounds of domains, slots, and how often a member of a multiset occurs.
ghost use Rattle.std.specs.Prelude.{◌≡◌, IfOk, map};
ghost use Rattle.ess_semantics.specs.Trees.{int_dom, set_dom, mset_dom};
ghost use Rattle.ess_core_nodes.specs.NodeViews.{pure_node, pure_nodes, pure_dom, pure_doms, pure_ends, pure_mark};
ghost use Rattle.ess_repr_declare_laws.specs.SizeTerms.{count_ex, bound_ex, product_ex, occurrences_ex, slots_ex};

use crate::atoms::{bound_or_0, is_bounded, is_one_value, two_bounds};
use crate::attributes::{greatest_size, number_of};
use crate::numerals::between;
use crate::terms::{listed, listed_int, next_power, power_of_two};
use ess_core::{Key, Op2};
use ess_core_nodes::{Ends, Mark, Node, NodeDom};
use ess_node_building::{binary, number};
use ess_rows::{Boxed, NoMemory};
use std::alloc::Global;

/// The number of members of an int domain of these ranges, or 0 where they can't be listed.
#[tactic(auto, using(crate::proofs::RangeSteps::count_single, crate::proofs::RangeSteps::count_span, crate::proofs::RangeSteps::count_many, crate::proofs::RangeSteps::count_open))]
fn count(alloc: Global, ends: &[Ends], bounds: &[Node]) -> Result<Boxed<Node>, NoMemory>
    ensures { IfOk result (λ n. pure_node n ≡ count_ex (map pure_ends ends.now) (pure_nodes bounds.now)) }
{
    if is_one_value(ends) {
        return number(alloc, 1);
    }
    match two_bounds(ends, bounds) {
        Some((low, high)) => {
            let low = bound_or_0(alloc, low)?;
            let high = bound_or_0(alloc, high)?;
            between(alloc, low, high)
        }
        None => {
            if is_bounded(ends) {
                listed_int(alloc, ends, bounds)
            } else {
                number(alloc, 0)
            }
        }
    }
}

/// The bound of a domain: a number that its number of members never exceeds. `NoMemory` where there is no room for it.
#[cycle(bounds)]
pub fn bound(alloc: Global, dom: &NodeDom) -> Result<Boxed<Node>, NoMemory>
    ensures { IfOk result (λ n. pure_node n ≡ bound_ex (pure_dom dom.now)) }
{
    match dom {
        NodeDom::Bool => number(alloc, 2),
        NodeDom::Int(ends, bounds) => count(alloc, ends.as_slice(), bounds.as_slice()),
        NodeDom::Name(_) => listed(alloc, dom),
        NodeDom::Tuple(parts) => product(alloc, parts.as_slice()),
        NodeDom::Record(_, parts) => product(alloc, parts.as_slice()),
        NodeDom::Matrix(axes, item) => {
            let items = bound(alloc, item.get())?;
            let places = product(alloc, axes.as_slice())?;
            next_power(alloc, items, places)
        }
        NodeDom::Set(_, _, member) => {
            let members = bound(alloc, member.get())?;
            power_of_two(alloc, members)
        }
        NodeDom::MSet(marks, numbers, member) => {
            let times = occurrences(alloc, marks.as_slice(), numbers.as_slice())?;
            let members = bound(alloc, member.get())?;
            next_power(alloc, times, members)
        }
        NodeDom::Function(_, _, from, to) => {
            let values = bound(alloc, to.get())?;
            let arguments = bound(alloc, from.get())?;
            next_power(alloc, values, arguments)
        }
        NodeDom::Relation(_, _, parts) => {
            let tuples = product(alloc, parts.as_slice())?;
            power_of_two(alloc, tuples)
        }
        NodeDom::Partition(_, _, member) => {
            let members = bound(alloc, member.get())?;
            let again = bound(alloc, member.get())?;
            next_power(alloc, members, again)
        }
    }
}

/// The product of the bounds.
#[cycle(bounds)]
#[tactic(auto, using(crate::proofs::Products::product_none, crate::proofs::Products::product_first, crate::proofs::Products::product_more, crate::proofs::Products::product_all))]
fn product(alloc: Global, doms: &[NodeDom]) -> Result<Boxed<Node>, NoMemory>
    ensures { IfOk result (λ n. pure_node n ≡ product_ex (pure_doms doms.now)) }
{
    if doms.len() == 0 {
        return number(alloc, 1);
    }
    let mut total = bound(alloc, &doms[0])?;
    let mut i = 1;
    while i < doms.len() {
        let members = bound(alloc, &doms[i])?;
        total = binary(alloc, false, Op2::Times, total, members)?;
        i += 1;
    }
    Ok(total)
}

/// How often a member of a multiset with these attributes occurs: `maxOccur`, else `size`, else `maxSize`, else 0. `NoMemory` where
/// there is no room for it.
#[tactic(auto, using(crate::proofs::SizeSteps::times_there, crate::proofs::SizeSteps::times_other, crate::proofs::SizeSteps::default_there, crate::proofs::SizeSteps::default_other))]
pub fn occurrences(alloc: Global, marks: &[Mark], numbers: &[Node]) -> Result<Boxed<Node>, NoMemory>
    ensures { IfOk result (λ n. pure_node n ≡ occurrences_ex (map pure_mark marks.now) (pure_nodes numbers.now)) }
{
    match number_of(marks, numbers, Key::MaxOccur) {
        Some(times) => times.copy(alloc),
        None => match greatest_size(marks, numbers) {
            Some(size) => size.copy(alloc),
            None => number(alloc, 0),
        },
    }
}

/// The slots of a set or multiset: `size`, else `maxSize`, else the bound of the inner domain, for a multiset as often as a member
/// occurs. 0 for any other domain. `NoMemory` where there is no room for it.
pub fn slots(alloc: Global, dom: &NodeDom) -> Result<Boxed<Node>, NoMemory>
    ensures { IfOk result (λ n. pure_node n ≡ slots_ex (pure_dom dom.now)) }
{
    match dom {
        NodeDom::Set(marks, numbers, member) => {
            set_slots(alloc, marks.as_slice(), numbers.as_slice(), member.get())
        }
        NodeDom::MSet(marks, numbers, member) => {
            mset_slots(alloc, marks.as_slice(), numbers.as_slice(), member.get())
        }
        _ => number(alloc, 0),
    }
}

/// The slots of a set.
#[tactic(auto, using(crate::proofs::SizeSteps::default_there, crate::proofs::SizeSteps::default_other))]
fn set_slots(
    alloc: Global,
    marks: &[Mark],
    numbers: &[Node],
    member: &NodeDom,
) -> Result<Boxed<Node>, NoMemory>
    ensures { IfOk result (λ n. pure_node n ≡ slots_ex (set_dom (map pure_mark marks.now) (pure_nodes numbers.now) (pure_dom member.now))) }
{
    match greatest_size(marks, numbers) {
        Some(size) => size.copy(alloc),
        None => bound(alloc, member),
    }
}

/// The slots of a multiset.
#[tactic(auto, using(crate::proofs::SizeSteps::default_there, crate::proofs::SizeSteps::default_other))]
fn mset_slots(
    alloc: Global,
    marks: &[Mark],
    numbers: &[Node],
    member: &NodeDom,
) -> Result<Boxed<Node>, NoMemory>
    ensures { IfOk result (λ n. pure_node n ≡ slots_ex (mset_dom (map pure_mark marks.now) (pure_nodes numbers.now) (pure_dom member.now))) }
{
    match greatest_size(marks, numbers) {
        Some(size) => size.copy(alloc),
        None => {
            let times = occurrences(alloc, marks, numbers)?;
            let members = bound(alloc, member)?;
            binary(alloc, false, Op2::Times, times, members)
        }
    }
}
