//! The members of declared domains beside those of others.
ghost use Rattle.std.specs.Prelude.{◌≡◌, IfOk, map, true, false, ℤ};
ghost use Rattle.std.specs.List.{list_any};
ghost use Rattle.ess_semantics.specs.Order.{same_int, same_ints};
ghost use Rattle.ess_semantics.specs.Satisfaction.{AreRuns};
ghost use Rattle.ess_semantics.specs.Tables.{is_cell};
ghost use Rattle.eprime_eval_scalars.specs.Runs.{pure_run};
ghost use Rattle.eprime_eval.specs.ClosedDomains.{pure_closed as pure_cells};
ghost use Rattle.eprime_verdicts.specs.ClosedDecls.{has_axis, are_over};
ghost use Rattle.ess_translate_cells.specs.SameRuns.{same_end, same_span, same_spans};
ghost use Rattle.ess_translate_cells.specs.ClosedTables.{Decides};

use eprime_eval::{Closed as CellDomain, Run, numbers_of};
use eprime_eval_scalars::{runs_of, truth_runs};
use ess_core::{NoMemory, Row};
use std::alloc::Global;
use std::cmp::Ordering;

// ---- axes

/// Whether axes are the members of domains, each of its own. `NoMemory` where there is no room to tell.
#[tactic(auto, using(eprime_verdicts::proofs::TablesFit::overs))]
pub(crate) fn axes_fit(
    alloc: Global,
    domains: &[CellDomain],
    axes: &[Row<i64>],
) -> Result<bool, NoMemory>
    ensures { IfOk result (λ b. b ≡ are_over domains.now axes.now) }
{
    if domains.len() != axes.len() {
        return Ok(false);
    }
    for (place, domain) in domains.iter().enumerate() {
        if !has_members(alloc, domain, axes[place].as_slice())? {
            return Ok(false);
        }
    }
    Ok(true)
}

/// Whether numbers are the members of a domain, rising. The members are listed only where each range has its first ones among the
/// numbers. `NoMemory` where there is no room to tell.
fn has_members(alloc: Global, domain: &CellDomain, numbers: &[i64]) -> Result<bool, NoMemory>
    ensures { IfOk result (λ b. b ≡ has_axis domain.now numbers.now) }
{
    if lacks_member(domain, numbers) {
        return Ok(false);
    }
    match numbers_of(alloc, domain)? {
        Some(members) => Ok(same_numbers(members.as_slice(), numbers)),
        None => Ok(false),
    }
}

/// Whether two lists of numbers are equal.
fn same_numbers(a: &[i64], b: &[i64]) -> bool
    ensures { result ≡ same_ints a.now b.now }
{
    a.cmp(b) == Ordering::Equal
}

/// Whether a member of a range isn't among the numbers, so that these aren't the members.
#[tactic(auto, using(eprime_verdicts::proofs::ListedMembers::other_axis))]
fn lacks_member(domain: &CellDomain, numbers: &[i64]) -> bool
    ensures { result ≡ true → has_axis domain.now numbers.now ≡ false }
{
    let CellDomain::Numbers(runs) = domain else {
        return false;
    };
    for run in runs.as_slice() {
        if let Some(member) = absent(*run, numbers) {
            if domain.holds(member) && !is_among(numbers, member) {
                return true;
            }
        }
    }
    false
}

/// Whether a number is among others.
fn is_among(numbers: &[i64], number: i64) -> bool
    ensures { result ≡ list_any (same_int number) numbers.now }
{
    numbers.iter().any(|other| number == *other)
}

/// The first number of a range with both ends that isn't among rising numbers, where it has one.
fn absent(run: Run, numbers: &[i64]) -> Option<i64> {
    match (run.from, run.to) {
        (Some(low), Some(high)) => {
            let next = first_missing(low, numbers)?;
            if next <= high { Some(next) } else { None }
        }
        _ => None,
    }
}

/// The first number from a low end on that isn't among rising numbers.
fn first_missing(low: i64, numbers: &[i64]) -> Option<i64> {
    let mut next = low;
    for number in numbers {
        if *number == next {
            next = next.checked_add(1)?;
        }
    }
    Some(next)
}

// ---- cells

/// Whether two domains have the same numbers. `NoMemory` where there is no room to tell.
#[tactic(auto, using(crate::proofs::Cells::cells_decided))]
pub(crate) fn same_cells(alloc: Global, a: &CellDomain, b: &CellDomain) -> Result<bool, NoMemory>
    ensures { IfOk result (λ c. Decides c ((n : ℤ) → is_cell (pure_cells a.now) n ≡ is_cell (pure_cells b.now) n)) }
{
    let first = runs_in_cells(alloc, a)?;
    let second = runs_in_cells(alloc, b)?;
    Ok(same_runs(first.as_slice(), second.as_slice()))
}

/// The maximal runs of a domain's numbers. `NoMemory` where there is no room for them.
fn runs_in_cells(alloc: Global, cells: &CellDomain) -> Result<Row<Run>, NoMemory>
    ensures { IfOk result (λ r. AreRuns (map pure_run r) (pure_cells cells.now)) }
{
    match cells {
        CellDomain::Truths => truth_runs(alloc),
        CellDomain::Numbers(runs) => runs_of(alloc, runs.as_slice()),
    }
}

/// Whether two lists of runs are equal.
#[tactic(auto, using(crate::proofs::Cells::runs_compared))]
fn same_runs(a: &[Run], b: &[Run]) -> bool
    ensures { result ≡ same_spans (map pure_run a.now) (map pure_run b.now) }
{
    if a.len() != b.len() {
        return false;
    }
    for (place, run) in a.iter().enumerate() {
        if !same_run(*run, b[place]) {
            return false;
        }
    }
    true
}

/// Whether two runs have the same ends.
fn same_run(a: Run, b: Run) -> bool
    ensures { result ≡ same_span (pure_run a) (pure_run b) }
{
    is_end(a.from, b.from) && is_end(a.to, b.to)
}

/// Whether two ends are equal, or both missing.
fn is_end(a: Option<i64>, b: Option<i64>) -> bool
    ensures { result ≡ same_end a b }
{
    match a {
        Some(a) => match b {
            Some(b) => a == b,
            None => false,
        },
        None => match b {
            Some(_) => false,
            None => true,
        },
    }
}
