//! The cells of tables as ranges of numbers.
ghost use Rattle.std.specs.Prelude.{◌≡◌, ◌∷◌, [], IfOk, map, if◌then◌else◌, pos};
ghost use Rattle.ess_semantics.specs.Domains.{integers, between};
ghost use Rattle.ess_semantics.specs.Declarations.{widened as widened_domain};
ghost use Rattle.ess_eval_domains.specs.ClosedViews.{pure_span};
ghost use Rattle.eprime_eval_scalars.specs.Runs.{pure_run};
ghost use Rattle.eprime_eval.specs.ClosedDomains.{pure_closed as pure_cells};

use eprime_eval::{Closed as CellDomain, Run};
use ess_core::{NoMemory, Row};
use ess_eval_domains::Span;
use std::alloc::Global;

/// Ranges as runs. `NoMemory` where there is no room for them.
#[tactic(auto, using(std::proofs::lemmas::List::map_more, std::proofs::lemmas::List::map_push))]
pub(crate) fn runs_in(alloc: Global, spans: &[Span]) -> Result<Row<Run>, NoMemory>
    ensures { IfOk result (λ r. map pure_run r ≡ map pure_span spans.now) }
{
    let mut runs = Row::with_capacity(alloc, spans.len())?;
    for span in spans {
        runs.push(run_of(*span))?;
    }
    Ok(runs)
}

/// A range as a run.
fn run_of(span: Span) -> Run
    ensures { pure_run result ≡ pure_span span }
{
    Run {
        from: span.low,
        to: span.high,
    }
}

/// The numbers of ranges, with 0 as one more where they are widened.
#[tactic(auto, using(crate::proofs::Widened::wide_some, crate::proofs::Widened::wide_none, crate::proofs::Widened::not_wide))]
pub(crate) fn widened(alloc: Global, out: bool, runs: Row<Run>) -> Result<CellDomain, NoMemory>
    ensures { IfOk result (λ c. pure_cells c ≡ (if out then widened_domain (integers (map pure_run runs))
        else integers (map pure_run runs))) }
{
    if !out {
        return Ok(CellDomain::Numbers(runs));
    }
    if runs.is_empty() {
        return Ok(CellDomain::Numbers(runs));
    }
    let mut runs = runs;
    let mut all = Row::from_array(alloc, [single(0)])?;
    all.append(&mut runs)?;
    Ok(CellDomain::Numbers(all))
}

/// The run of one number.
pub(crate) fn single(number: i64) -> Run
    ensures { pure_run result ≡ record { low = Some number; high = Some number } }
{
    Run {
        from: Some(number),
        to: Some(number),
    }
}

/// From a number to a number, with 0 as one more where they are widened.
pub(crate) fn from_to(alloc: Global, out: bool, low: i64, high: i64) -> Result<CellDomain, NoMemory>
    ensures { IfOk result (λ c. pure_cells c ≡ (if out then widened_domain (between low high) else between low high)) }
{
    widened(
        alloc,
        out,
        Row::from_array(
            alloc,
            [Run {
                from: Some(low),
                to: Some(high),
            }],
        )?,
    )
}

/// From 0 to a number. `NoMemory` where the number is too large.
pub(crate) fn up_to(alloc: Global, count: u64) -> Result<CellDomain, NoMemory>
    ensures { IfOk result (λ c. pure_cells c ≡ between (pos 0) (pos count)) }
{
    match i64::try_from(count) {
        Ok(count) => from_to(alloc, false, 0, count),
        Err(_) => Err(NoMemory),
    }
}

/// From 1 to a number, with 0 as one more where they are widened. `NoMemory` where the number is too large.
pub(crate) fn one_to(alloc: Global, out: bool, count: u64) -> Result<CellDomain, NoMemory>
    ensures { IfOk result (λ c. pure_cells c ≡ (if out then widened_domain (between (pos 1) (pos count))
        else between (pos 1) (pos count))) }
{
    match i64::try_from(count) {
        Ok(count) => from_to(alloc, out, 1, count),
        Err(_) => Err(NoMemory),
    }
}
