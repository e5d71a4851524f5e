ghost use Rattle.std.specs.Prelude.{◌≡◌, ◌-ℤ◌, ◌≤ℤ◌, pos, IfOk, length, map, IsPermutation};
ghost use Rattle.std.specs.Option.{option_copied};
ghost use Rattle.std.specs.Ordering.{int_cmp};
ghost use Rattle.ess_semantics.specs.Numbers.{natural};
ghost use Rattle.ess_semantics.specs.Order.{same_ints};
ghost use Rattle.eprime_cells_parts.specs.Sweeping.{ends_of, LowsRise, up_from, greater as greater_one, swept, behind, lowest};

use crate::numbers::number_of;
use eprime_cells_machine::CellRange;
use ess_rows::{NoMemory, Row};
use std::alloc::Global;
use std::cmp::Ordering;

/// A range from a number to a number, both included. It has no members where the first is the higher one.
#[derive(Clone, Copy)]
pub(crate) struct Ends {
    /// The lower end.
    pub(crate) from: i64,
    /// The upper end.
    pub(crate) to: i64,
}

/// The ends of ranges.
#[tactic(auto, using(std::proofs::lemmas::List::map_more, std::proofs::lemmas::List::map_push))]
pub(crate) fn all_ends(alloc: Global, ranges: &[CellRange]) -> Result<Row<Ends>, NoMemory>
    ensures { IfOk result (λ r. r ≡ map ends_of ranges.now) }
{
    let mut ends = Row::with_capacity(alloc, ranges.len())?;
    for range in ranges {
        ends.push(ends_of(*range))?;
    }
    Ok(ends)
}

/// The ends of a range.
fn ends_of(range: CellRange) -> Ends
    ensures { result ≡ ends_of range }
{
    match range {
        CellRange::One(number) => Ends {
            from: number_of(number),
            to: number_of(number),
        },
        CellRange::Span(low, high) => Ends {
            from: number_of(low),
            to: number_of(high),
        },
    }
}

/// Ranges in an order in which their lower ends don't fall. `NoMemory` where there is no room to sort them.
pub(crate) fn rising(ranges: Row<Ends>) -> Result<Row<Ends>, NoMemory>
    ensures same { IfOk result (λ r. IsPermutation ranges r) }
    ensures rising { IfOk result (λ r. LowsRise r) }
{
    let mut ranges = ranges.into_vec();
    ranges.sort_by(|a, b| order(a, b))?;
    Ok(Row::from_vec(ranges))
}

/// The order of the lower ends of two ranges.
fn order(a: &Ends, b: &Ends) -> Ordering
    ensures { result ≡ int_cmp a.now.from b.now.from }
{
    a.from.cmp(&b.from)
}

/// Whether an axis has exactly the members of ranges from the first number on, where the lower ends of the ranges don't fall. The
/// axis is gone through once, beside the ranges.
pub(crate) fn are_members(axis: &[i64], first: i64, ranges: &[Ends]) -> bool
    ensures { result ≡ same_ints (swept first ranges.now) axis.now }
{
    let mut left = axis;
    let mut next = first as i128;
    for range in ranges {
        let end = range.to as i128 + 1;
        match behind_run(left, greater(next, range.from as i128), end) {
            Some(rest) => left = rest,
            None => return false,
        }
        next = greater(next, end);
    }
    left.is_empty()
}

/// The greater one of two numbers.
fn greater(a: i128, b: i128) -> i128
    ensures { result ≡ greater_one a b }
{
    if a <= b { b } else { a }
}

/// What stands in a list behind the numbers from `from` up to before `end`, where it begins with these.
fn behind_run(list: &[i64], from: i128, end: i128) -> Option<&[i64]>
    requires low { lowest ≤ℤ from }
    requires high { from ≤ℤ pos 9223372036854775808 }
    requires end_low { lowest ≤ℤ end }
    requires end_high { end ≤ℤ pos 9223372036854775808 }
    ensures { option_copied result ≡ behind (up_from from (natural (end -ℤ from))) list.now }
{
    if end <= from {
        return Some(list);
    }
    let count = end - from;
    if count > list.len() as i128 {
        return None;
    }
    let (front, rest) = list.split_at(count as usize);
    if is_run(from, front) {
        Some(rest)
    } else {
        None
    }
}

/// Whether these are the numbers from the first on.
fn is_run(first: i128, numbers: &[i64]) -> bool
    requires low { lowest ≤ℤ first }
    requires high { first ≤ℤ pos 9223372036854775808 }
    ensures { result ≡ same_ints (up_from first (length numbers.now)) numbers.now }
{
    for (place, number) in numbers.iter().enumerate() {
        if *number as i128 - first != place as i128 {
            return false;
        }
    }
    true
}
