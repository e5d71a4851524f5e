//! Lettings put into the ranges of an int domain.
ghost use Rattle.std.specs.Prelude.{◌≡◌, map, option_map, IfOk, OnOk};
ghost use Rattle.ess_semantics.specs.Lettings.{put_ex, put_exs};
ghost use Rattle.ess_core.specs.TreeViews.{words_of, within, exs_of, pure_ex, pure_range};
ghost use Rattle.ess_types_names.specs.Tables.{pure_table};
ghost use Rattle.ess_types_scopes.specs.Kept.{pure_lettings};
ghost use Rattle.ess_types_lettings.specs.Putting.{put_with};

use crate::expressions::put_ex;
use ess_core::{Boxed, Ex, NoMemory, Range, Row};
use ess_types_names::TypeTable;
use ess_types_scopes::Lettings;
use std::alloc::Global;

/// Ranges with lettings put in.
#[cycle(put)]
pub(crate) fn put_ranges(
    alloc: Global,
    ranges: &[Range],
    lettings: &Lettings,
    table: &mut TypeTable,
) -> Result<Row<Range>, NoMemory>
    ensures words { IfOk result (λ r. words_of (map pure_range r) ≡ words_of (map pure_range ranges.now)) }
    ensures ok { IfOk result (λ r. exs_of (within (map pure_range r))
        ≡ put_exs (exs_of (within (map pure_range ranges.now))) (pure_lettings lettings.now) (pure_table table.old)) }
    ensures kept { OnOk result (table.new ≡ table.old) }
{
    Ok(each_range(alloc, ranges, lettings, table)?)
}

/// Ranges with lettings put in, one by one.
#[cycle(put)]
fn each_range(
    alloc: Global,
    ranges: &[Range],
    lettings: &Lettings,
    table: &mut TypeTable,
) -> Result<Row<Range>, NoMemory>
    ensures ok { IfOk result (λ r. map pure_range r
        ≡ map (λ x. put_with (pure_range x) (pure_lettings lettings.now) (pure_table table.old)) ranges.now) }
    ensures kept { OnOk result (table.new ≡ table.old) }
{
    let mut puts = Row::with_capacity(alloc, ranges.len())?;
    for range in ranges {
        puts.push(put_range(alloc, range, lettings, table)?.into_inner())?;
    }
    Ok(puts)
}

/// A range with lettings put in.
#[cycle(put)]
#[tactic(auto, using(crate::proofs::Putting::ranges_put))]
fn put_range(
    alloc: Global,
    range: &Range,
    lettings: &Lettings,
    table: &mut TypeTable,
) -> Result<Boxed<Range>, NoMemory>
    ensures ok { IfOk result (λ r. pure_range r ≡ put_with (pure_range range.now) (pure_lettings lettings.now) (pure_table table.old)) }
    ensures kept { OnOk result (table.new ≡ table.old) }
{
    match range {
        Range::One(ex) => {
            let ex = put_ex(alloc, ex, lettings, table)?;
            Boxed::new(alloc, Range::One(ex.into_inner()))
        }
        Range::Span(low, high) => {
            let low = put_maybe(alloc, low, lettings, table)?;
            let high = put_maybe(alloc, high, lettings, table)?;
            Boxed::new(alloc, Range::Span(taken_out(low), taken_out(high)))
        }
    }
}

/// The expression with lettings put in, where there is one.
#[cycle(put)]
pub(crate) fn put_maybe(
    alloc: Global,
    ex: &Option<Ex>,
    lettings: &Lettings,
    table: &mut TypeTable,
) -> Result<Option<Boxed<Ex>>, NoMemory>
    ensures ok { IfOk result (λ o. option_map pure_ex o
        ≡ option_map (λ e. put_ex e (pure_lettings lettings.now) (pure_table table.old)) (option_map pure_ex ex.now)) }
    ensures kept { OnOk result (table.new ≡ table.old) }
{
    match ex {
        Some(ex) => Ok(Some(put_ex(alloc, ex, lettings, table)?)),
        None => Ok(None),
    }
}

/// The expression out of its box, where there is one.
pub(crate) fn taken_out(ex: Option<Boxed<Ex>>) -> Option<Ex>
    ensures { result ≡ ex }
{
    match ex {
        Some(ex) => Some(ex.into_inner()),
        None => None,
    }
}
