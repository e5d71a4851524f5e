//! The ranges of an int domain, of their forms and their bounds.
ghost use Rattle.std.specs.Prelude.{◌≡◌, IfOk, map, option_map, reverse};
ghost use Rattle.std.specs.List.{list_all};
ghost use Rattle.ess_semantics.specs.Kinds.{is_bounded as bounded, is_closed_end};
ghost use Rattle.ess_semantics.specs.Lists.{when};
ghost use Rattle.ess_semantics.specs.Trees.{int_dom};
ghost use Rattle.ess_grammar.specs.Models.{Scope};
ghost use Rattle.ess_grammar.specs.Readable.{fit_ranges};
ghost use Rattle.ess_core_nodes.specs.NodeViews.{pure_ends};
ghost use Rattle.eprime_tree.specs.Views.{pure_ex, pure_dom, exs_of};
ghost use Rattle.eprime_lowering.specs.Ranges.{first_range, ranges_of};

use eprime_tree::{PDom, PEx, PRange};
use ess_core_nodes::Ends;
use ess_rows::{NoMemory, Row};
use std::alloc::Global;

/// Whether each range has its bounds, and there is one.
#[tactic(auto, using(crate::proofs::RangeLoops::bounded_all, crate::proofs::RangeLoops::bounded_none))]
pub(crate) fn is_bounded(ends: &[Ends]) -> bool
    ensures { result ≡ bounded (map pure_ends ends.now) }
{
    if ends.is_empty() {
        return false;
    }
    are_closed(ends)
}

/// Whether each range has its bounds.
fn are_closed(ends: &[Ends]) -> bool
    ensures { result ≡ list_all (λ end. is_closed_end (pure_ends end)) ends.now }
{
    ends.iter().all(|end| is_closed(*end))
}

/// Whether a range of this form has its bounds.
fn is_closed(end: Ends) -> bool
    ensures { result ≡ is_closed_end (pure_ends end) }
{
    matches!(end, Ends::One | Ends::Both)
}

/// The int domain of ranges of these forms, where there are just their bounds.
pub(crate) fn int_of(
    alloc: Global,
    ends: &[Ends],
    bounds: Row<PEx>,
) -> Result<Option<PDom>, NoMemory>
    ensures { IfOk result (λ o. (s : Scope) → option_map (pure_dom s) o
        ≡ when (fit_ranges (map pure_ends ends.now) (exs_of (map (pure_ex s) bounds)))
        (int_dom (map pure_ends ends.now) (exs_of (map (pure_ex s) bounds)))) }
{
    match ranges(alloc, ends, bounds)? {
        Some(ranges) => Ok(Some(PDom::Int(ranges))),
        None => Ok(None),
    }
}

/// The ranges of these forms, where there are just their bounds.
#[tactic(auto, using(crate::proofs::RangeLoops::ranges_swept))]
fn ranges(alloc: Global, ends: &[Ends], bounds: Row<PEx>) -> Result<Option<Row<PRange>>, NoMemory>
    ensures { IfOk result (λ o. o ≡ ranges_of ends.now bounds) }
{
    let mut left = reversed(bounds);
    let mut ranges = Row::with_capacity(alloc, ends.len())?;
    for end in ends {
        match next_range(*end, &mut left) {
            Some(range) => ranges.push(range)?,
            None => return Ok(None),
        }
    }
    if left.is_empty() {
        Ok(Some(ranges))
    } else {
        Ok(None)
    }
}

/// The row from its last item to its first.
fn reversed(row: Row<PEx>) -> Row<PEx>
    ensures { result ≡ reverse row }
{
    let mut items = row.into_vec();
    items.reverse();
    Row::from_vec(items)
}

/// The range of this form with the last of the bounds that are left, which are taken out, where there are enough.
#[tactic(auto, using(crate::proofs::RangeLoops::bound_taken))]
fn next_range(end: Ends, left: &mut Row<PEx>) -> Option<PRange>
    ensures { option_map (λ range. (range, reverse left.new)) result ≡ first_range end (reverse left.old) }
{
    match end {
        Ends::One => match left.pop() {
            Some(only) => Some(PRange::One(only)),
            None => None,
        },
        Ends::Both => both_bounds(left),
        Ends::Low => match left.pop() {
            Some(low) => Some(PRange::Span(Some(low), None)),
            None => None,
        },
        Ends::High => match left.pop() {
            Some(high) => Some(PRange::Span(None, Some(high))),
            None => None,
        },
    }
}

/// The range between two bounds.
#[tactic(auto, using(crate::proofs::RangeLoops::two_taken, crate::proofs::RangeLoops::one_left, crate::proofs::RangeLoops::none_left))]
fn both_bounds(left: &mut Row<PEx>) -> Option<PRange>
    ensures { option_map (λ range. (range, reverse left.new)) result ≡ first_range Ends.Both (reverse left.old) }
{
    match left.pop() {
        Some(low) => match left.pop() {
            Some(high) => Some(PRange::Span(Some(low), Some(high))),
            None => {
                drop(low);
                None
            }
        },
        None => None,
    }
}
