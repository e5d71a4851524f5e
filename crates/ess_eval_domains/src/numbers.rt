ghost use Rattle.std.specs.Prelude.{◌≡◌, ◌++◌, map, option_map, IfOk, OnOk};
ghost use Rattle.ess_semantics.specs.Values.{number};
ghost use Rattle.ess_semantics.specs.Order.{order as order_of};
ghost use Rattle.ess_semantics.specs.Collections.{sorted_once as sorted_once_of};
ghost use Rattle.ess_semantics.specs.Domains.{interval, span_members, int_members};
ghost use Rattle.ess_core.specs.ValueViews.{pure_val};
ghost use Rattle.ess_eval_domains.specs.ClosedViews.{pure_span};
ghost use Rattle.ess_eval_domains.specs.Ranges.{all_bounded, span_numbers, numbers_of_spans};

use crate::closed::Span;
use ess_core::{NoMemory, Row, Val};
use std::alloc::Global;
use std::cmp::Ordering;

/// The numbers that some range holds, rising, where each range has its bounds and there is one. `NoMemory` where there is
/// no room for them.
#[tactic(auto, using(crate::proofs::RangeNumbers::int_empty, crate::proofs::RangeNumbers::int_none, crate::proofs::RangeNumbers::int_some, crate::proofs::RangeNumbers::int_one))]
pub fn number_members(alloc: Global, spans: &[Span]) -> Result<Option<Row<i64>>, NoMemory>
    ensures { IfOk result (λ o. option_map (map number) o ≡ int_members (map pure_span spans.now)) }
{
    if spans.len() == 0 {
        return Ok(None);
    }
    if !are_bounded(spans) {
        return Ok(None);
    }
    let numbers = all_numbers(alloc, spans)?;
    if spans.len() == 1 {
        return Ok(Some(numbers));
    }
    Ok(Some(sorted_once(numbers)?))
}

/// The members of an int domain, as values. `NoMemory` where there is no room for them.
pub fn integer_members(alloc: Global, spans: &[Span]) -> Result<Option<Row<Val>>, NoMemory>
    ensures { IfOk result (λ o. option_map (map pure_val) o ≡ int_members (map pure_span spans.now)) }
{
    match number_members(alloc, spans)? {
        Some(numbers) => Ok(Some(number_values(alloc, numbers.as_slice())?)),
        None => Ok(None),
    }
}

/// Numbers as values. `NoMemory` where there is no room for them.
#[tactic(auto, using(std::proofs::lemmas::List::map_more, std::proofs::lemmas::List::map_push))]
fn number_values(alloc: Global, numbers: &[i64]) -> Result<Row<Val>, NoMemory>
    ensures { IfOk result (λ r. map pure_val r ≡ map number numbers.now) }
{
    let mut values = Row::with_capacity(alloc, numbers.len())?;
    for number in numbers {
        values.push(Val::Num(*number))?;
    }
    Ok(values)
}

/// Whether each range has both bounds.
fn are_bounded(spans: &[Span]) -> bool
    ensures { result ≡ all_bounded (map pure_span spans.now) }
{
    for span in spans {
        if span.low.is_none() || span.high.is_none() {
            return false;
        }
    }
    true
}

/// The numbers of all ranges, range by range. One without a bound has none. `NoMemory` where there is no room for them.
#[tactic(auto, using(crate::proofs::RangeNumbers::numbers_more))]
fn all_numbers(alloc: Global, spans: &[Span]) -> Result<Row<i64>, NoMemory>
    ensures { IfOk result (λ r. map number r ≡ numbers_of_spans (map pure_span spans.now)) }
{
    let mut numbers = Row::new(alloc);
    for span in spans {
        add_span(&mut numbers, *span)?;
    }
    Ok(numbers)
}

/// Puts the numbers of a range behind others. `NoMemory` where there is no room for them.
#[tactic(auto, using(crate::proofs::RangeNumbers::no_low, crate::proofs::RangeNumbers::no_high, crate::proofs::RangeNumbers::both_bounds))]
fn add_span(numbers: &mut Row<i64>, span: Span) -> Result<(), NoMemory>
    ensures { OnOk result (map number numbers.new ≡ map number numbers.old ++ span_numbers (pure_span span)) }
{
    match span.low {
        Some(low) => match span.high {
            Some(high) => add_interval(numbers, low, high),
            None => Ok(()),
        },
        None => Ok(()),
    }
}

/// Puts the numbers from a bound to a bound behind others. `NoMemory` where there is no room for them.
#[tactic(auto, using(crate::proofs::RangeNumbers::interval_more, crate::proofs::RangeNumbers::interval_all, crate::proofs::RangeNumbers::interval_empty))]
fn add_interval(numbers: &mut Row<i64>, low: i64, high: i64) -> Result<(), NoMemory>
    ensures { OnOk result (map number numbers.new ≡ map number numbers.old ++ interval low high) }
{
    if low <= high {
        for number in low..high {
            numbers.push(number)?;
        }
        numbers.push(high)?;
    }
    Ok(())
}

/// Numbers in strictly rising order, each once. `NoMemory` where there is no room to sort them.
fn sorted_once(numbers: Row<i64>) -> Result<Row<i64>, NoMemory>
    ensures { IfOk result (λ r. map number r ≡ sorted_once_of (map number numbers)) }
{
    let mut numbers = numbers.into_vec();
    numbers.sort_by(|a, b| order(a, b))?;
    numbers.dedup_by(|a, b| order(a, b) == Ordering::Equal);
    Ok(Row::from_vec(numbers))
}

/// The order of two numbers.
fn order(a: &i64, b: &i64) -> Ordering
    ensures { result ≡ order_of (number a.now) (number b.now) }
{
    a.cmp(b)
}
