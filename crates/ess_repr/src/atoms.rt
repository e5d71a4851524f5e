//! Atoms among domains: finite ints, bool and named types.
ghost use Rattle.std.specs.Prelude.{◌≡◌, [], ◌∷◌, map};
ghost use Rattle.std.specs.List.{list_all};
ghost use Rattle.ess_semantics.specs.Kinds.{is_bounded as is_bounded_int, is_closed_end, is_atom as is_an_atom, has_dummy as has_a_dummy, are_atoms as are_all_atoms, is_atom_tuple as is_a_tuple_of_atoms};
ghost use Rattle.ess_semantics.specs.Trees.{int_dom, no_exs};
ghost use Rattle.ess_core.specs.TreeViews.{words_of, pure_range, pure_dom, pure_doms};

use ess_core::{Dom, Range};

/// Whether a range has both bounds.
fn is_closed(range: &Range) -> bool
    ensures { result ≡ is_closed_end (pure_range range.now).0 }
{
    match range {
        Range::One(_) => true,
        Range::Span(Some(_), Some(_)) => true,
        Range::Span(None, None) => true,
        Range::Span(_, _) => false,
    }
}

/// Whether each range has both bounds.
#[tactic(auto, using(crate::proofs::Ranges::closed_more, crate::proofs::Ranges::closed_none, crate::proofs::Ranges::closed_all))]
fn are_closed(ranges: &[Range]) -> bool
    ensures { result ≡ list_all is_closed_end (words_of (map pure_range ranges.now)) }
{
    for (i, range) in ranges.iter().enumerate() {
        if !is_closed(range) {
            return false;
        }
    }
    true
}

/// Whether an int domain of these ranges is finite: it has ranges, and each has its bounds.
#[tactic(auto, using(crate::proofs::Ranges::unbounded, crate::proofs::Ranges::bounded_closed))]
pub(crate) fn is_bounded(ranges: &[Range]) -> bool
    ensures { result ≡ is_bounded_int (words_of (map pure_range ranges.now)) }
{
    match ranges.first() {
        Some(_) => are_closed(ranges),
        None => false,
    }
}

/// Whether the domain is a finite int, bool or a named type.
pub(crate) fn is_atom(dom: &Dom) -> bool
    ensures { result ≡ is_an_atom (pure_dom dom.now) }
{
    match dom {
        Dom::Bool => true,
        Dom::Int(ranges) => is_bounded(ranges.as_slice()),
        Dom::Name(_) => true,
        _ => false,
    }
}

/// Whether a range is written with two bounds.
fn is_span(range: &Range) -> bool
    ensures { result ≡ has_a_dummy (int_dom ((pure_range range.now).0 ∷ []) no_exs) }
{
    match range {
        Range::One(_) => false,
        Range::Span(Some(_), Some(_)) => true,
        Range::Span(None, None) => true,
        Range::Span(_, _) => false,
    }
}

/// Whether these are one range with two bounds.
#[tactic(auto, using(crate::proofs::Ranges::span_there, crate::proofs::Ranges::span_other))]
fn is_one_span(ranges: &[Range]) -> bool
    ensures { result ≡ has_a_dummy (int_dom (words_of (map pure_range ranges.now)) no_exs) }
{
    if ranges.len() != 1 {
        return false;
    }
    is_span(&ranges[0])
}

/// Whether the domain is an atom with a least number above its members: one range with both bounds, or a named type.
#[tactic(auto, using(crate::proofs::Ranges::dummy_of_ints))]
pub(crate) fn has_dummy(dom: &Dom) -> bool
    ensures { result ≡ has_a_dummy (pure_dom dom.now) }
{
    match dom {
        Dom::Int(ranges) => is_one_span(ranges.as_slice()),
        Dom::Name(_) => true,
        _ => false,
    }
}

/// Whether each of the domains is an atom.
#[tactic(auto, using(crate::proofs::DomainLists::atoms_more, crate::proofs::DomainLists::atoms_none, crate::proofs::DomainLists::atoms_all))]
pub(crate) fn are_atoms(doms: &[Dom]) -> bool
    ensures { result ≡ are_all_atoms (pure_doms doms.now) }
{
    for (i, dom) in doms.iter().enumerate() {
        if !is_atom(dom) {
            return false;
        }
    }
    true
}

/// Whether the domain is one of tuples of atoms.
pub(crate) fn is_atom_tuple(dom: &Dom) -> bool
    ensures { result ≡ is_a_tuple_of_atoms (pure_dom dom.now) }
{
    match dom {
        Dom::Tuple(parts) => are_atoms(parts.as_slice()),
        _ => false,
    }
}
