//! Which domains are finite, whose members can be listed, and which may be the domain of a given.
ghost use Rattle.std.specs.Prelude.{◌≡◌, map};
ghost use Rattle.std.specs.List.{list_all};
ghost use Rattle.ess_semantics.specs.Kinds.{is_bounded as is_bounded_int, is_closed_end, is_atom as is_an_atom};
ghost use Rattle.ess_semantics.specs.DomainJudgements.{ranges_fit as are_ranges_fit, is_finite as is_finite_dom, are_finite as are_finite_doms, is_enumerable as is_enumerable_dom, are_enumerable as are_enumerable_doms, listed_domains, needs_known_slots as slots_are_known, all_need_known_slots as all_slots_are_known, index_domains};
ghost use Rattle.ess_core.specs.TreeViews.{words_of, field_values, pure_range, pure_attr, pure_dom, pure_doms, pure_field_dom};
ghost use Rattle.ess_semantics.specs.Kinds.{doms_of, dom_list};
ghost use Rattle.ess_types_judging.specs.Listed.{function_is_listable as is_function_listable, first_is_enumerable as is_first_enumerable, relation_is_listable as is_relation_listable};

use crate::attributes::{bounds_occurrences, has_key};
use ess_core::{Attr, Dom, FieldDom, Key, Range};

/// Whether a range has both bounds.

fn is_closed(range: &Range) -> bool
    ensures { result ≡ is_closed_end (pure_range range.now).0 }
{
    match range {
        Range::One(_) => true,
        Range::Span(Some(_), Some(_)) => true,
        Range::Span(None, None) => true,
        Range::Span(_, _) => false,
    }
}

/// Whether each range has both bounds.
#[tactic(auto, using(crate::proofs::RangeLemmas::closed_more, crate::proofs::RangeLemmas::closed_none, crate::proofs::RangeLemmas::closed_all))]
fn are_closed(ranges: &[Range]) -> bool
    ensures { result ≡ list_all is_closed_end (words_of (map pure_range ranges.now)) }
{
    for (i, range) in ranges.iter().enumerate() {
        if !is_closed(range) {
            return false;
        }
    }
    true
}

/// Whether an int domain of these ranges is finite: it has ranges, and each has its bounds.
#[tactic(auto, using(crate::proofs::RangeLemmas::unbounded, crate::proofs::RangeLemmas::bounded_closed))]
pub(crate) fn is_bounded(ranges: &[Range]) -> bool
    ensures { result ≡ is_bounded_int (words_of (map pure_range ranges.now)) }
{
    match ranges.first() {
        Some(_) => are_closed(ranges),
        None => false,
    }
}

/// Whether an int domain of these ranges is finite, or has at most one.
#[tactic(auto, using(crate::proofs::RangeLemmas::words_counted))]
pub(crate) fn ranges_fit(ranges: &[Range]) -> bool
    ensures { result ≡ are_ranges_fit (words_of (map pure_range ranges.now)) }
{
    is_bounded(ranges) || ranges.len() <= 1
}

/// Whether the domain is a finite int, bool or a named type.
pub(crate) fn is_atom(dom: &Dom) -> bool
    ensures { result ≡ is_an_atom (pure_dom dom.now) }
{
    match dom {
        Dom::Bool => true,
        Dom::Int(ranges) => is_bounded(ranges.as_slice()),
        Dom::Name(_) => true,
        _ => false,
    }
}

/// Whether a domain has finitely many members.
#[cycle(finite)]
pub fn is_finite(dom: &Dom) -> bool
    ensures { result ≡ is_finite_dom (pure_dom dom.now) }
{
    match dom {
        Dom::Bool => true,
        Dom::Int(ranges) => is_bounded(ranges.as_slice()),
        Dom::Name(_) => true,
        Dom::Tuple(doms) => are_finite(doms.as_slice()),
        Dom::Rec(fields) => fields_finite(fields.as_slice()),
        Dom::Matrix(axes, item) => are_finite(axes.as_slice()) && is_finite(item.get()),
        Dom::Set(_, member) => is_finite(member.get()),
        Dom::MSet(attrs, member) => is_finite(member.get()) && bounds_occurrences(attrs.as_slice()),
        Dom::Function(_, from, to) => is_finite(from.get()) && is_finite(to.get()),
        Dom::Relation(_, doms) => are_finite(doms.as_slice()),
        Dom::Partition(_, member) => is_finite(member.get()),
    }
}

/// Whether all of the domains have finitely many members.
#[cycle(finite)]
#[tactic(auto, using(crate::proofs::DomainLists::finite_more, crate::proofs::DomainLists::finite_none, crate::proofs::DomainLists::finite_all))]
pub(crate) fn are_finite(doms: &[Dom]) -> bool
    ensures { result ≡ are_finite_doms (pure_doms doms.now) }
{
    for (i, dom) in doms.iter().enumerate() {
        if !is_finite(dom) {
            return false;
        }
    }
    true
}

/// Whether the domains of all fields have finitely many members.
#[cycle(finite)]
#[tactic(auto, using(crate::proofs::DomainLists::fields_finite_more, crate::proofs::DomainLists::fields_finite_none, crate::proofs::DomainLists::fields_finite_all))]
fn fields_finite(fields: &[FieldDom]) -> bool
    ensures { result ≡ are_finite_doms (doms_of (field_values (map pure_field_dom fields.now))) }
{
    for (i, field) in fields.iter().enumerate() {
        if !is_finite(&field.dom) {
            return false;
        }
    }
    true
}

/// Whether the members of a domain can be listed: those of an atom, or of a tuple or record of such.
#[cycle(enumerable)]
pub(crate) fn is_enumerable(dom: &Dom) -> bool
    ensures { result ≡ is_enumerable_dom (pure_dom dom.now) }
{
    match dom {
        Dom::Tuple(doms) => are_enumerable(doms.as_slice()),
        Dom::Rec(fields) => fields_enumerable(fields.as_slice()),
        Dom::Bool => true,
        Dom::Int(ranges) => is_bounded(ranges.as_slice()),
        Dom::Name(_) => true,
        _ => false,
    }
}

/// Whether the members of all of the domains can be listed.
#[cycle(enumerable)]
#[tactic(auto, using(crate::proofs::DomainLists::enumerable_more, crate::proofs::DomainLists::enumerable_none, crate::proofs::DomainLists::enumerable_all))]
fn are_enumerable(doms: &[Dom]) -> bool
    ensures { result ≡ are_enumerable_doms (pure_doms doms.now) }
{
    for (i, dom) in doms.iter().enumerate() {
        if !is_enumerable(dom) {
            return false;
        }
    }
    true
}

/// Whether the members of the domains of all fields can be listed.
#[cycle(enumerable)]
#[tactic(auto, using(crate::proofs::DomainLists::fields_enumerable_more, crate::proofs::DomainLists::fields_enumerable_none, crate::proofs::DomainLists::fields_enumerable_all))]
fn fields_enumerable(fields: &[FieldDom]) -> bool
    ensures { result ≡ are_enumerable_doms (doms_of (field_values (map pure_field_dom fields.now))) }
{
    for (i, field) in fields.iter().enumerate() {
        if !is_enumerable(&field.dom) {
            return false;
        }
    }
    true
}

/// Whether the domains of a function can be listed that its attributes list.
fn function_is_listable(attrs: &[Attr], from: &Dom, to: &Dom) -> bool
    ensures { result ≡ is_function_listable (words_of (map pure_attr attrs.now)) (pure_dom from.now) (pure_dom to.now) }
{
    let arguments = !has_key(attrs, Key::Total) || is_enumerable(from);
    let values = !(has_key(attrs, Key::Surjective) || has_key(attrs, Key::Bijective))
        || is_enumerable(to);
    arguments && values
}

/// Whether the first of the domains can be listed, where there is one.
#[tactic(auto, using(crate::proofs::DomainLists::no_first, crate::proofs::DomainLists::first_listed))]
fn first_is_enumerable(doms: &[Dom]) -> bool
    ensures { result ≡ is_first_enumerable (pure_doms doms.now) }
{
    match doms.first() {
        Some(dom) => is_enumerable(dom),
        None => true,
    }
}

/// Whether the first domain of a relation can be listed, where its attributes list it.
fn relation_is_listable(attrs: &[Attr], doms: &[Dom]) -> bool
    ensures { result ≡ is_relation_listable (words_of (map pure_attr attrs.now)) (pure_doms doms.now) }
{
    !has_key(attrs, Key::Reflexive) || first_is_enumerable(doms)
}

/// Whether the domains can be listed whose members an attribute or a partition lists.
#[tactic(auto, using(crate::proofs::DomainLists::function_listed, crate::proofs::DomainLists::relation_there, crate::proofs::DomainLists::partition_listed))]
pub(crate) fn listed_are_enumerable(dom: &Dom) -> bool
    ensures { result ≡ list_all is_enumerable_dom (listed_domains (pure_dom dom.now)) }
{
    match dom {
        Dom::Function(attrs, from, to) => function_is_listable(
            attrs.as_slice(),
            from.get(),
            to.get(),
        ),
        Dom::Relation(attrs, doms) => relation_is_listable(attrs.as_slice(), doms.as_slice()),
        Dom::Partition(_, member) => is_enumerable(member.get()),
        _ => true,
    }
}

/// Whether each index domain of a matrix's domain is an atom.

pub(crate) fn indices_are_atoms(dom: &Dom) -> bool
    ensures { result ≡ list_all is_an_atom (index_domains (pure_dom dom.now)) }
{
    match dom {
        Dom::Matrix(axes, _) => are_atoms(axes.as_slice()),
        _ => true,
    }
}

/// Whether each of the domains is an atom.
#[tactic(auto, using(crate::proofs::DomainLists::atoms_more, crate::proofs::DomainLists::atoms_none, crate::proofs::DomainLists::atoms_all))]
fn are_atoms(doms: &[Dom]) -> bool
    ensures { result ≡ list_all is_an_atom (dom_list (pure_doms doms.now)) }
{
    for (i, dom) in doms.iter().enumerate() {
        if !is_atom(dom) {
            return false;
        }
    }
    true
}

/// Whether a given may have the domain: it is finite, or an infinite int, or has one of these as an element, component or
/// codomain.
#[cycle(slots)]
pub fn needs_known_slots(dom: &Dom) -> bool
    ensures { result ≡ slots_are_known (pure_dom dom.now) }
{
    match dom {
        Dom::Int(_) => true,
        Dom::Tuple(doms) => all_need_known_slots(doms.as_slice()),
        Dom::Rec(fields) => fields_need_known_slots(fields.as_slice()),
        Dom::Matrix(axes, item) => are_finite(axes.as_slice()) && needs_known_slots(item.get()),
        Dom::Function(_, from, to) => is_finite(from.get()) && needs_known_slots(to.get()),
        _ => is_finite(dom),
    }
}

/// The same of each component.
#[cycle(slots)]
#[tactic(auto, using(crate::proofs::DomainLists::slots_more, crate::proofs::DomainLists::slots_none, crate::proofs::DomainLists::slots_all))]
fn all_need_known_slots(doms: &[Dom]) -> bool
    ensures { result ≡ all_slots_are_known (pure_doms doms.now) }
{
    for (i, dom) in doms.iter().enumerate() {
        if !needs_known_slots(dom) {
            return false;
        }
    }
    true
}

/// The same of each field.
#[cycle(slots)]
#[tactic(auto, using(crate::proofs::DomainLists::fields_slots_more, crate::proofs::DomainLists::fields_slots_none, crate::proofs::DomainLists::fields_slots_all))]
fn fields_need_known_slots(fields: &[FieldDom]) -> bool
    ensures { result ≡ all_slots_are_known (doms_of (field_values (map pure_field_dom fields.now))) }
{
    for (i, field) in fields.iter().enumerate() {
        if !needs_known_slots(&field.dom) {
            return false;
        }
    }
    true
}
