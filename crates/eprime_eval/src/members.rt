ghost use Rattle.std.specs.Prelude.{◌≡◌, ◌<◌, IfOk, IfSome, Some, map, length, option_map, slice_get};
ghost use Rattle.ess_semantics.specs.Domains.{members, int_members, interval, span_members};
ghost use Rattle.ess_semantics.specs.DeclaredTables.{axis_members};
ghost use Rattle.ess_semantics.specs.Membership.{in_spans};
ghost use Rattle.ess_semantics.specs.Satisfaction.{AreRuns};
ghost use Rattle.ess_semantics.specs.Tables.{is_cell};
ghost use Rattle.ess_semantics.specs.Values.{number};
ghost use Rattle.ess_eval_domains.specs.ClosedViews.{pure_span};
ghost use Rattle.eprime_eval_scalars.specs.Runs.{pure_run};
ghost use Rattle.eprime_eval_scalars.specs.ScalarViews.{pure_scalar};
ghost use Rattle.eprime_eval.specs.ClosedDomains.{pure_closed};
ghost use Rattle.eprime_eval.specs.MemberViews.{member_values};

use crate::{NoMemory, Row, Run, Scalar};
use eprime_eval_scalars::{is_within, runs_of, truth_runs};
use ess_eval_domains::{Span, number_members};
use std::alloc::Global;

/// A domain of a model in which each bound is a number.
#[derive(Drop)]
pub enum Closed {
    /// Truth values.
    Truths,
    /// The numbers of ranges. Without a range it holds all whole numbers.
    Numbers(Row<Run>),
}

impl Closed {
    /// Whether a number is a member; truth values are 0 and 1.
    pub fn holds(&self, number: i64) -> bool
        ensures { result ≡ is_cell (pure_closed self.now) number }
    {
        match self {
            Closed::Truths => number == 0 || number == 1,
            Closed::Numbers(runs) => is_within(runs.as_slice(), number),
        }
    }
}

/// The members of a domain as numbers, rising, where they can be listed. `NoMemory` where there is no room for them.
#[tactic(auto, using(crate::proofs::MemberLists::codes))]
pub fn numbers_of(alloc: Global, domain: &Closed) -> Result<Option<Row<i64>>, NoMemory>
    ensures { IfOk result (λ o. o ≡ axis_members (Some (pure_closed domain.now))) }
{
    match domain {
        Closed::Truths => Ok(Some(Row::from_slice(alloc, &[0, 1])?)),
        Closed::Numbers(runs) => {
            let numbers = numbers_in(alloc, runs.as_slice())?;
            Ok(numbers)
        }
    }
}

/// The numbers of ranges, rising, where they can be listed. `NoMemory` where there is no room for them.
fn numbers_in(alloc: Global, runs: &[Run]) -> Result<Option<Row<i64>>, NoMemory>
    ensures { IfOk result (λ o. option_map (map number) o ≡ int_members (map pure_run runs.now)) }
{
    let spans = spans_of(alloc, runs)?;
    number_members(alloc, spans.as_slice())
}

/// The members of a domain, in order.
#[derive(Drop)]
pub(crate) enum Members {
    /// So many numbers, from this one on.
    Run(i64, usize),
    /// These values.
    Listed(Row<Scalar>),
}

impl Members {
    /// How many there are.
    #[tactic(auto, using(crate::proofs::MemberLists::member_counts))]
    pub(crate) fn len(&self) -> usize
        ensures { result ≡ length (member_values self.now) }
    {
        match self {
            Members::Run(_, count) => *count,
            Members::Listed(values) => values.len(),
        }
    }

    /// The one at a place, counted from 0. It answers, and never `NoMemory`, where the numbers of a run are in 64 bits, as those
    /// of a domain are.
    #[tactic(auto, using(crate::proofs::MemberLists::members_at))]
    pub(crate) fn at(&self, place: usize) -> Result<Scalar, NoMemory>
        requires { place < length (member_values self.now) }
        ensures { IfOk result (λ v. slice_get (member_values self.now) place ≡ Some (pure_scalar v)) }
    {
        match self {
            Members::Run(first, _) => match i64::try_from(*first as i128 + place as i128) {
                Ok(number) => Ok(Scalar::Num(number)),
                Err(_) => Err(NoMemory),
            },
            Members::Listed(values) => match values.get(place) {
                Some(value) => Ok(*value),
                None => Err(NoMemory),
            },
        }
    }
}

/// The members of a domain, rising, where they can be listed. Those of one range aren't written down. `NoMemory` where there is no
/// room for them.
pub(crate) fn members_of(alloc: Global, domain: &Closed) -> Result<Option<Members>, NoMemory>
    ensures { IfOk result (λ o. option_map member_values o ≡ members (pure_closed domain.now)) }
{
    match domain {
        Closed::Truths => Ok(Some(Members::Listed(Row::from_slice(
            alloc,
            &[Scalar::Truth(false), Scalar::Truth(true)],
        )?))),
        Closed::Numbers(runs) => match one_run(runs.as_slice()) {
            Some(members) => Ok(Some(members)),
            None => listed(alloc, runs.as_slice()),
        },
    }
}

/// The numbers of ranges, rising, where they can be listed. `NoMemory` where there is no room for them.
fn listed(alloc: Global, runs: &[Run]) -> Result<Option<Members>, NoMemory>
    ensures { IfOk result (λ o. option_map member_values o ≡ int_members (map pure_run runs.now)) }
{
    match numbers_in(alloc, runs)? {
        Some(numbers) => Ok(Some(Members::Listed(scalars(alloc, numbers.as_slice())?))),
        None => Ok(None),
    }
}

/// The numbers of a range with both bounds, where it is the only one.
fn one_run(runs: &[Run]) -> Option<Members>
    ensures { IfSome result (λ m. Some (member_values m) ≡ int_members (map pure_run runs.now)) }
{
    match runs.split_first() {
        Some((run, rest)) => { if rest.len() == 0 { bounded(*run) } else { None } }
        None => None,
    }
}

/// The numbers of a range, where it has both bounds and they can be counted.
#[tactic(auto, using(crate::proofs::MemberLists::both_bounds))]
fn bounded(run: Run) -> Option<Members>
    ensures { IfSome result (λ m. Some (member_values m) ≡ span_members (pure_run run)) }
{
    match run.from {
        Some(low) => match run.to {
            Some(high) => between(low, high),
            None => None,
        },
        None => None,
    }
}

/// The numbers from a bound to a bound, where they can be counted.
#[tactic(auto, using(crate::proofs::MemberLists::intervals))]
fn between(low: i64, high: i64) -> Option<Members>
    ensures { IfSome result (λ m. member_values m ≡ interval low high) }
{
    let count = high as i128 - low as i128 + 1;
    if count < 0 {
        return Some(Members::Run(low, 0));
    }
    match usize::try_from(count) {
        Ok(count) => Some(Members::Run(low, count)),
        Err(_) => None,
    }
}

/// The maximal runs of the members of a domain, rising. `NoMemory` where there is no room for them.
pub(crate) fn runs_in(alloc: Global, domain: &Closed) -> Result<Row<Run>, NoMemory>
    ensures { IfOk result (λ r. AreRuns (map pure_run r) (pure_closed domain.now)) }
{
    match domain {
        Closed::Truths => truth_runs(alloc),
        Closed::Numbers(runs) => runs_of(alloc, runs.as_slice()),
    }
}

/// Numbers as scalars. `NoMemory` where there is no room for them.
#[tactic(auto, using(std::proofs::lemmas::List::map_more, std::proofs::lemmas::List::map_push))]
fn scalars(alloc: Global, numbers: &[i64]) -> Result<Row<Scalar>, NoMemory>
    ensures { IfOk result (λ r. map pure_scalar r ≡ map number numbers.now) }
{
    let mut scalars = Row::with_capacity(alloc, numbers.len())?;
    for number in numbers {
        scalars.push(Scalar::Num(*number))?;
    }
    Ok(scalars)
}

/// Runs as ranges. `NoMemory` where there is no room for them.
#[tactic(auto, using(std::proofs::lemmas::List::map_more, std::proofs::lemmas::List::map_push))]
fn spans_of(alloc: Global, runs: &[Run]) -> Result<Row<Span>, NoMemory>
    ensures { IfOk result (λ r. map pure_span r ≡ map pure_run runs.now) }
{
    let mut spans = Row::with_capacity(alloc, runs.len())?;
    for run in runs {
        spans.push(span_of(*run))?;
    }
    Ok(spans)
}

/// A run as a range.
fn span_of(run: Run) -> Span
    ensures { pure_span result ≡ pure_run run }
{
    Span {
        low: run.from,
        high: run.to,
    }
}
