//! Sizes of domains as terms: bounds, slots, and how often a member of a multiset occurs.
ghost use Rattle.std.specs.Prelude.{◌≡◌, IfOk, [], ◌∷◌, map, option_map};
ghost use Rattle.ess_semantics.specs.Trees.{int_dom, set_dom, mset_dom};
ghost use Rattle.ess_semantics.specs.Kinds.{doms_of};
ghost use Rattle.ess_core.specs.TreeViews.{words_of, within, exs_of, span, field_values, pure_attr, pure_range, pure_ex, pure_dom, pure_doms, pure_field_dom};
ghost use Rattle.ess_repr_declare_laws.specs.SizeTerms.{two_ex, next_ex, count_ex, bound_ex, product_ex, power_ex, occurrences_ex, slots_ex};

use crate::atoms::is_bounded;
use crate::attributes::{greatest_size, value_of};
use crate::numerals::between;
use crate::terms::{copied, listed, next, number, two};
use ess_core::{Attr, Boxed, Dom, Ex, FieldDom, Key, NoMemory, Op2, Range};
use std::alloc::Global;

/// The number of members of an int domain of these ranges, or 0 where they can't be listed.
#[tactic(auto, using(crate::proofs::SizeSteps::count_one, crate::proofs::SizeSteps::count_many, crate::proofs::SizeSteps::count_open))]
fn int_count(alloc: Global, dom: &Dom, ranges: &[Range]) -> Result<Boxed<Ex>, NoMemory>
    requires { pure_dom dom.now ≡ int_dom (words_of (map pure_range ranges.now)) (exs_of (within (map pure_range ranges.now))) }
    ensures { IfOk result (λ e. pure_ex e ≡ count_ex (words_of (map pure_range ranges.now)) (exs_of (within (map pure_range ranges.now)))) }
{
    if ranges.len() == 1 {
        return range_count(alloc, &ranges[0]);
    }
    if is_bounded(ranges) {
        listed(alloc, dom)
    } else {
        number(alloc, 0)
    }
}

/// The number of members of one range, or 0 where they can't be listed.
#[tactic(auto, using(crate::proofs::SizeSteps::count_single, crate::proofs::SizeSteps::count_span))]
fn range_count(alloc: Global, range: &Range) -> Result<Boxed<Ex>, NoMemory>
    ensures { IfOk result (λ e. pure_ex e ≡ count_ex ((pure_range range.now).0 ∷ []) (exs_of (pure_range range.now).1)) }
{
    match range {
        Range::One(_) => number(alloc, 1),
        Range::Span(low, high) => span_count(alloc, low, high),
    }
}

/// The number of members of a range with these bounds, as far as they are there.
#[tactic(auto, using(crate::proofs::SizeSteps::span_both))]
fn span_count(alloc: Global, low: &Option<Ex>, high: &Option<Ex>) -> Result<Boxed<Ex>, NoMemory>
    ensures { IfOk result (λ e. pure_ex e ≡ count_ex ((span (option_map pure_ex low.now) (option_map pure_ex high.now)).0 ∷ [])
        (exs_of (span (option_map pure_ex low.now) (option_map pure_ex high.now)).1)) }
{
    match low {
        Some(low) => match high {
            Some(high) => between(alloc, low, high),
            None => number(alloc, 0),
        },
        None => match high {
            Some(_) => number(alloc, 0),
            None => number(alloc, 1),
        },
    }
}

/// The bound of a domain: a number that its number of members never exceeds.
#[cycle(bounds)]
pub(crate) fn bound(alloc: Global, dom: &Dom) -> Result<Boxed<Ex>, NoMemory>
    ensures { IfOk result (λ e. pure_ex e ≡ bound_ex (pure_dom dom.now)) }
{
    match dom {
        Dom::Bool => number(alloc, 2),
        Dom::Int(ranges) => int_count(alloc, dom, ranges.as_slice()),
        Dom::Name(_) => listed(alloc, dom),
        Dom::Tuple(parts) => product(alloc, parts.as_slice()),
        Dom::Rec(fields) => product_of_fields(alloc, fields.as_slice()),
        Dom::Matrix(axes, item) => {
            let items = bound(alloc, item.get())?;
            let places = product(alloc, axes.as_slice())?;
            next_power(alloc, items, places)
        }
        Dom::Set(_, member) => {
            let members = bound(alloc, member.get())?;
            power_of_two(alloc, members)
        }
        Dom::MSet(attrs, member) => {
            let times = occurrences(alloc, attrs.as_slice())?;
            let members = bound(alloc, member.get())?;
            next_power(alloc, times, members)
        }
        Dom::Function(_, from, to) => {
            let values = bound(alloc, to.get())?;
            let arguments = bound(alloc, from.get())?;
            next_power(alloc, values, arguments)
        }
        Dom::Relation(_, parts) => {
            let tuples = product(alloc, parts.as_slice())?;
            power_of_two(alloc, tuples)
        }
        Dom::Partition(_, member) => {
            let members = bound(alloc, member.get())?;
            let again = bound(alloc, member.get())?;
            next_power(alloc, members, again)
        }
    }
}

/// One more than the first term to the power of the second.
fn next_power(alloc: Global, base: Boxed<Ex>, exponent: Boxed<Ex>) -> Result<Boxed<Ex>, NoMemory>
    ensures { IfOk result (λ e. pure_ex e ≡ power_ex (next_ex (pure_ex base)) (pure_ex exponent)) }
{
    let base = next(alloc, base)?;
    two(alloc, Op2::Pow, base, exponent)
}

/// 2 to the power of the term.
fn power_of_two(alloc: Global, exponent: Boxed<Ex>) -> Result<Boxed<Ex>, NoMemory>
    ensures { IfOk result (λ e. pure_ex e ≡ power_ex two_ex (pure_ex exponent)) }
{
    let base = number(alloc, 2)?;
    two(alloc, Op2::Pow, base, exponent)
}

/// The product of the bounds.
#[cycle(bounds)]
#[tactic(auto, using(crate::proofs::SizeSteps::product_none, crate::proofs::SizeSteps::product_first, crate::proofs::SizeSteps::product_more, crate::proofs::SizeSteps::product_all))]
fn product(alloc: Global, doms: &[Dom]) -> Result<Boxed<Ex>, NoMemory>
    ensures { IfOk result (λ e. pure_ex e ≡ product_ex (pure_doms doms.now)) }
{
    if doms.len() == 0 {
        return number(alloc, 1);
    }
    let mut total = bound(alloc, &doms[0])?;
    let mut i = 1;
    while i < doms.len() {
        let members = bound(alloc, &doms[i])?;
        total = two(alloc, Op2::Times, total, members)?;
        i += 1;
    }
    Ok(total)
}

/// The same of the domains of fields.
#[cycle(bounds)]
#[tactic(auto, using(crate::proofs::SizeSteps::field_product_none, crate::proofs::SizeSteps::field_product_first, crate::proofs::SizeSteps::field_product_more, crate::proofs::SizeSteps::field_product_all))]
fn product_of_fields(alloc: Global, fields: &[FieldDom]) -> Result<Boxed<Ex>, NoMemory>
    ensures { IfOk result (λ e. pure_ex e ≡ product_ex (doms_of (field_values (map pure_field_dom fields.now)))) }
{
    if fields.len() == 0 {
        return number(alloc, 1);
    }
    let mut total = bound(alloc, &fields[0].dom)?;
    let mut i = 1;
    while i < fields.len() {
        let members = bound(alloc, &fields[i].dom)?;
        total = two(alloc, Op2::Times, total, members)?;
        i += 1;
    }
    Ok(total)
}

/// How often a member of a multiset occurs: `maxOccur`, else `size`, else `maxSize`, else 0.
#[tactic(auto, using(crate::proofs::SizeSteps::times_there, crate::proofs::SizeSteps::times_other, crate::proofs::SizeSteps::default_there, crate::proofs::SizeSteps::default_other))]
pub(crate) fn occurrences(alloc: Global, attrs: &[Attr]) -> Result<Boxed<Ex>, NoMemory>
    ensures { IfOk result (λ e. pure_ex e ≡ occurrences_ex (words_of (map pure_attr attrs.now))
        (exs_of (within (map pure_attr attrs.now)))) }
{
    match value_of(attrs, Key::MaxOccur) {
        Some(times) => copied(alloc, times),
        None => match greatest_size(attrs) {
            Some(size) => copied(alloc, size),
            None => number(alloc, 0),
        },
    }
}

/// The slots of a set: `size`, else `maxSize`, else the bound of the inner domain.
#[tactic(auto, using(crate::proofs::SizeSteps::default_there, crate::proofs::SizeSteps::default_other))]
pub(crate) fn set_slots(alloc: Global, attrs: &[Attr], member: &Dom) -> Result<Boxed<Ex>, NoMemory>
    ensures { IfOk result (λ e. pure_ex e ≡ slots_ex (set_dom (words_of (map pure_attr attrs.now))
        (exs_of (within (map pure_attr attrs.now))) (pure_dom member.now))) }
{
    match greatest_size(attrs) {
        Some(size) => copied(alloc, size),
        None => bound(alloc, member),
    }
}

/// The slots of a multiset: `size`, else `maxSize`, else the bound of the inner domain as often as a member occurs.
#[tactic(auto, using(crate::proofs::SizeSteps::default_there, crate::proofs::SizeSteps::default_other))]
pub(crate) fn mset_slots(alloc: Global, attrs: &[Attr], member: &Dom) -> Result<Boxed<Ex>, NoMemory>
    ensures { IfOk result (λ e. pure_ex e ≡ slots_ex (mset_dom (words_of (map pure_attr attrs.now))
        (exs_of (within (map pure_attr attrs.now))) (pure_dom member.now))) }
{
    match greatest_size(attrs) {
        Some(size) => copied(alloc, size),
        None => {
            let times = occurrences(alloc, attrs)?;
            let members = bound(alloc, member)?;
            two(alloc, Op2::Times, times, members)
        }
    }
}
