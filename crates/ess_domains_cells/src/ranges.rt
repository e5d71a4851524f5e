ghost use Rattle.std.specs.Prelude.{◌≡◌, true, map, length, pos, ◌-ℤ◌, ◌≤ℤ◌};
ghost use Rattle.ess_semantics.specs.Lists.{list_or_none};
ghost use Rattle.ess_semantics.specs.Domains.{int_members};
ghost use Rattle.ess_semantics.specs.Membership.{in_span as span_holds};
ghost use Rattle.ess_eval_domains.specs.ClosedViews.{pure_span};
ghost use Rattle.ess_eval_domains.specs.Ranges.{all_bounded};
ghost use Rattle.ess_domains_cells.specs.Kept.{kept as kept_of};
ghost use Rattle.ess_domains_cells.specs.Uncovered.{uncovered, uncovered_by, distance};
ghost use Rattle.ess_domains_cells.specs.Sweeps.{end_of as end_meant, nearer as nearer_of, next_start as next_meant};

use crate::kept::sum;
use ess_eval_domains::Span;

/// How many members an int domain with these ranges has, kept at the limit: none where it has no range, or one without a bound.
#[tactic(auto, using(crate::proofs::RangeCounts::count_unbounded, crate::proofs::RangeCounts::count_none, crate::proofs::RangeCounts::count_more, crate::proofs::RangeCounts::count_all, crate::proofs::RangeCounts::bounded_rest, crate::proofs::KeptNumbers::kept_twice))]
pub fn number_count(spans: &[Span]) -> u128
    ensures { result ≡ kept_of (length (list_or_none (int_members (map pure_span spans.now)))) }
{
    if !are_bounded(spans) {
        return 0;
    }
    let mut count: u128 = 0;
    for k in 0..spans.len() {
        count = sum(count, added_numbers(spans[k], &spans[k + 1..]));
    }
    count
}

/// How many numbers of a range none of the other ranges holds, kept at the limit.
fn added_numbers(span: Span, others: &[Span]) -> u128
    requires { all_bounded (map pure_span others.now) ≡ true }
    ensures { result ≡ kept_of (uncovered_by (map pure_span others.now) (pure_span span).low (pure_span span).high) }
{
    match span.low {
        Some(low) => match span.high {
            Some(high) => uncovered_numbers(others, low, high),
            None => 0,
        },
        None => 0,
    }
}

/// Whether each range has both bounds.
fn are_bounded(spans: &[Span]) -> bool
    ensures { result ≡ all_bounded (map pure_span spans.now) }
{
    for span in spans {
        if span.low.is_none() || span.high.is_none() {
            return false;
        }
    }
    true
}

/// How many numbers from `low` to `high` none of the ranges holds, kept at the limit.
#[tactic(auto, using(crate::proofs::RangeSweeps::walk_covered, crate::proofs::RangeSweeps::walk_end, crate::proofs::RangeSweeps::walk_uncovered, crate::proofs::RangeSweeps::walk_on, crate::proofs::RangeSweeps::walk_within, crate::proofs::RangeSweeps::walk_up, crate::proofs::RangeSweeps::walk_held, crate::proofs::RangeSweeps::walk_free, crate::proofs::RangeSweeps::walk_nothing, crate::proofs::KeptNumbers::kept_twice))]
fn uncovered_numbers(spans: &[Span], low: i64, high: i64) -> u128
    requires { all_bounded (map pure_span spans.now) ≡ true }
    ensures { result ≡ kept_of (uncovered (map pure_span spans.now) low (distance low high)) }
{
    if high < low {
        return 0;
    }
    let mut at = low;
    let mut count: u128 = 0;
    while at < high {
        match end_of(spans, at) {
            Some(end) => {
                if end >= high {
                    return count;
                }
                at = end + 1;
            }
            None => {
                let next = next_start(spans, at, high);
                count = sum(count, steps(at, next));
                at = next;
            }
        }
    }
    if end_of(spans, high).is_some() {
        return count;
    }
    sum(count, 1)
}

/// How far it is from a number to one that isn't lower.
fn steps(from: i64, to: i64) -> u128
    requires { from ≤ℤ to }
    ensures { pos result ≡ to -ℤ from }
{
    (to as i128 - from as i128) as u128
}

/// The upper bound of the first range that holds the number.
fn end_of(spans: &[Span], number: i64) -> Option<i64>
    ensures { result ≡ end_meant (map pure_span spans.now) number }
{
    for span in spans {
        if in_span(*span, number) {
            return span.high;
        }
    }
    None
}

/// Whether a range holds the number.
fn in_span(span: Span, number: i64) -> bool
    ensures { result ≡ span_holds number (pure_span span) }
{
    match span.low {
        Some(low) => {
            if low > number {
                return false;
            }
        }
        None => {}
    }
    match span.high {
        Some(high) => number <= high,
        None => true,
    }
}

/// The least lower bound behind the number and before the end; the end where there is none.
fn next_start(spans: &[Span], number: i64, end: i64) -> i64
    ensures { result ≡ next_meant (map pure_span spans.now) number end }
{
    let mut next = end;
    for span in spans {
        next = nearer(span.low, number, next);
    }
    next
}

/// The bound, where it lies behind the number and before the end; else the end.
fn nearer(low: Option<i64>, number: i64, end: i64) -> i64
    ensures { result ≡ nearer_of low number end }
{
    match low {
        Some(low) => { if number < low && low < end { low } else { end } }
        None => end,
    }
}
