ghost use Rattle.std.specs.Prelude.{◌≡◌, ◌++◌, map, length, nat_le, option_map, IfOk, OnOk};
ghost use Rattle.ess_semantics.specs.Lists.{and_then};
ghost use Rattle.ess_semantics.specs.Domains.{interval as numbers_between, items_from};
ghost use Rattle.ess_semantics.specs.Meaning.{Env as PureEnv};
ghost use Rattle.ess_semantics.specs.Trees.{bool_dom, name_dom};
ghost use Rattle.ess_semantics.specs.Types.{named_ty};
ghost use Rattle.ess_core.specs.ValueViews.{pure_val};
ghost use Rattle.ess_core.specs.TreeViews.{pure_dom, pure_range};
ghost use Rattle.ess_core.specs.TableViews.{pure_env};
ghost use Rattle.ess_values.specs.TypedLiterals.{both, index_of, typed_matrix};
ghost use Rattle.ess_values.specs.Ranges.{literal_interval, numbers_of};
ghost use Rattle.ess_values.specs.Literals.{pure_literal, pure_parts, pure_index, pure_interval, pure_int_dom};

use super::numbers::number_of;
use super::parts::{Literal, Parts};
use crate::joining::join_all;
use crate::naming::entry_of;
use crate::shapes::{Kind, Shape, two_shapes};
use crate::sorting::sorted_once;
use ess_core::{Boxed, Dom, Env, NoMemory, Range, Row, Text, Val};
use std::alloc::Global;

/// An index domain: its type, and its members.
#[derive(Drop)]
pub struct Index {
    pub shape: Boxed<Shape>,
    pub members: Row<Val>,
}

/// From a number to a number, both included.
#[derive(Clone, Copy, Debug, PartialEq, Eq)]
pub struct Interval {
    pub low: i64,
    pub high: i64,
}

/// A matrix literal with an index domain, where its items agree and the domain has as many members.
pub fn matrix_on(
    alloc: Global,
    parts: Option<Parts>,
    domain: &Dom,
    env: &Env,
) -> Result<Option<Literal>, NoMemory>
    ensures { IfOk result (λ o. option_map pure_literal o ≡ and_then (option_map pure_parts parts) (typed_matrix (pure_dom domain.now) (pure_env env.now))) }
{
    let Some(parts) = parts else {
        return Ok(None);
    };
    let Some(item) = join_all(alloc, parts.shapes.as_slice())? else {
        return Ok(None);
    };
    match index_domain(alloc, domain, parts.vals.len(), env)? {
        Some(found) => {
            let shapes = two_shapes(alloc, found.shape, item)?;
            Ok(Some(Literal {
                shape: Boxed::new(alloc, Shape::Node(Kind::Matrix, shapes))?,
                val: Boxed::new(alloc, Val::Matrix(found.members, parts.vals))?,
            }))
        }
        None => Ok(None),
    }
}

/// The type and the members of an index domain, where it has so many.
fn index_domain(
    alloc: Global,
    domain: &Dom,
    count: usize,
    env: &Env,
) -> Result<Option<Index>, NoMemory>
    ensures { IfOk result (λ o. option_map pure_index o ≡ index_of (pure_dom domain.now) count (pure_env env.now)) }
{
    match domain {
        Dom::Bool => Ok(booleans(alloc, count)?),
        Dom::Name(name) => Ok(named(alloc, name, count, env)?),
        Dom::Int(ranges) => Ok(numbers(alloc, ranges.as_slice(), count)?),
        _ => Ok(None),
    }
}

/// The truth values as an index.
fn booleans(alloc: Global, count: usize) -> Result<Option<Index>, NoMemory>
    ensures { IfOk result (λ o. (env : PureEnv) → option_map pure_index o ≡ index_of bool_dom count env) }
{
    if count != 2 {
        return Ok(None);
    }
    Ok(Some(Index {
        shape: Boxed::new(alloc, Shape::Bool)?,
        members: Row::from_array(alloc, [Val::Truth(false), Val::Truth(true)])?,
    }))
}

/// The values of a named type as an index.
#[tactic(auto, using(crate::proofs::IndexLemmas::named_found, crate::proofs::IndexLemmas::named_other, crate::proofs::IndexLemmas::named_none))]
fn named(alloc: Global, name: &Text, count: usize, env: &Env) -> Result<Option<Index>, NoMemory>
    ensures { IfOk result (λ o. option_map pure_index o ≡ index_of (name_dom name.now) count (pure_env env.now)) }
{
    match entry_of(env, name) {
        Some(entry) => {
            if entry.count == count as u64 {
                all_items(alloc, name, count)
            } else {
                Ok(None)
            }
        }
        None => Ok(None),
    }
}

/// So many values of a named type as an index.
fn all_items(alloc: Global, name: &Text, count: usize) -> Result<Option<Index>, NoMemory>
    ensures { IfOk result (λ o. option_map pure_index o ≡ Some (named_ty name.now, items_from name.now 1 count)) }
{
    Ok(Some(Index {
        shape: Boxed::new(alloc, Shape::Named(name.copy(alloc)?))?,
        members: items(alloc, name, count)?,
    }))
}

/// The first values of a named type.
#[tactic(auto, using(crate::proofs::IndexLemmas::one_more_item))]
fn items(alloc: Global, name: &Text, count: usize) -> Result<Row<Val>, NoMemory>
    ensures { IfOk result (λ r. map pure_val r ≡ items_from name.now 1 count) }
{
    let mut items = Row::new(alloc);
    for k in 0..count {
        items.push(Val::Item(name.copy(alloc)?, k as u64 + 1))?;
    }
    Ok(items)
}

/// The numbers of ranges as an index.
#[tactic(auto, using(crate::proofs::RangeLemmas::no_index, crate::proofs::RangeLemmas::no_ranges, crate::proofs::RangeLemmas::index_there))]
fn numbers(alloc: Global, ranges: &[Range], count: usize) -> Result<Option<Index>, NoMemory>
    ensures { IfOk result (λ o. (env : PureEnv) → option_map pure_index o ≡ index_of (pure_int_dom ranges.now) count env) }
{
    if ranges.is_empty() {
        return Ok(None);
    }
    let Some(found) = all_numbers(alloc, ranges, count)? else {
        return Ok(None);
    };
    let members = sorted_once(found)?;
    if members.len() != count {
        return Ok(None);
    }
    Ok(Some(Index {
        shape: Boxed::new(alloc, Shape::Int)?,
        members,
    }))
}

/// The numbers of ranges one behind the other, where each range is one of literals and has no more than so many.
#[tactic(auto, using(crate::proofs::RangeLoops::numbers_step, crate::proofs::RangeLoops::numbers_long, crate::proofs::RangeLoops::numbers_bad, crate::proofs::RangeLoops::numbers_end))]
fn all_numbers(alloc: Global, ranges: &[Range], count: usize) -> Result<Option<Row<Val>>, NoMemory>
    ensures { IfOk result (λ o. option_map (map pure_val) o ≡ numbers_of count (map pure_range ranges.now)) }
{
    let mut found = Row::new(alloc);
    for range in ranges {
        match interval_of(range) {
            Some(span) => {
                if !is_within(span, count) {
                    return Ok(None);
                }
                push_interval(&mut found, span)?;
            }
            None => return Ok(None),
        }
    }
    Ok(Some(found))
}

/// The interval of a range of literals.
fn interval_of(range: &Range) -> Option<Interval>
    ensures { option_map pure_interval result ≡ literal_interval (pure_range range.now) }
{
    match range {
        Range::One(ex) => between(number_of(ex), number_of(ex)),
        Range::Span(Some(low), Some(high)) => between(number_of(low), number_of(high)),
        _ => None,
    }
}

/// The interval from a number to a number, where both are there.
fn between(low: Option<i64>, high: Option<i64>) -> Option<Interval>
    ensures { option_map pure_interval result ≡ both low high }
{
    match (low, high) {
        (Some(low), Some(high)) => Some(Interval { low, high }),
        (_, _) => None,
    }
}

/// Whether an interval has no more than so many numbers.
#[tactic(auto, using(crate::proofs::IndexLemmas::within_count, crate::proofs::IndexLemmas::above_count, crate::proofs::IndexLemmas::no_count))]
fn is_within(span: Interval, count: usize) -> bool
    ensures { result ≡ nat_le (length (numbers_between span.low span.high)) count }
{
    if span.low > span.high {
        return true;
    }
    if span.high.abs_diff(span.low) >= count as u64 {
        return false;
    }
    true
}

/// Writes the numbers of an interval behind others.
#[tactic(auto, using(crate::proofs::IndexLemmas::interval_more, crate::proofs::IndexLemmas::interval_one, crate::proofs::IndexLemmas::interval_none))]
fn push_interval(out: &mut Row<Val>, span: Interval) -> Result<(), NoMemory>
    ensures { OnOk result (map pure_val out.new ≡ map pure_val out.old ++ numbers_between span.low span.high) }
{
    if span.low > span.high {
        return Ok(());
    }
    for number in span.low..span.high {
        out.push(Val::Num(number))?;
    }
    out.push(Val::Num(span.high))?;
    Ok(())
}
