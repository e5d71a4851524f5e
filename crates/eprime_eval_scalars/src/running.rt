ghost use Rattle.std.specs.Prelude.{◌≡◌, [], IfOk, map};
ghost use Rattle.std.specs.List.{list_any};
ghost use Rattle.ess_semantics.specs.Domains.{integers, booleans};
ghost use Rattle.ess_semantics.specs.Membership.{in_span, in_spans};
ghost use Rattle.ess_semantics.specs.Satisfaction.{is_run as has_member, AreRuns};
ghost use Rattle.eprime_eval_scalars.specs.Runs.{pure_run, is_left as ends_before, merged as together, lower_bound, upper_bound, insert_run, runs_with};

use crate::{NoMemory, Row};
use std::alloc::Global;

/// A run of whole numbers, with both ends; without one it has no bound on that side.
#[derive(Clone, Copy, Debug, PartialEq, Eq)]
pub struct Run {
    /// The least number.
    pub from: Option<i64>,
    /// The greatest number.
    pub to: Option<i64>,
}

/// The maximal runs of the numbers that some range holds, rising; without a range, of all numbers. `NoMemory` where there
/// is no room for them.
#[tactic(auto, using(crate::proofs::Runs::runs_of_all, crate::proofs::Runs::runs_of_ranges))]
pub fn runs_of(alloc: Global, ranges: &[Run]) -> Result<Row<Run>, NoMemory>
    ensures { IfOk result (λ r. AreRuns (map pure_run r) (integers (map pure_run ranges.now))) }
{
    if ranges.len() == 0 {
        let mut all = Row::new(alloc);
        all.push(Run {
            from: None,
            to: None,
        })?;
        return Ok(all);
    }
    let runs = put_together(alloc, ranges)?;
    Ok(runs)
}

/// The run of the numbers that stand for truth values. `NoMemory` where there is no room for it.
#[tactic(auto, using(crate::proofs::Runs::runs_of_truths))]
pub fn truth_runs(alloc: Global) -> Result<Row<Run>, NoMemory>
    ensures { IfOk result (λ r. AreRuns (map pure_run r) booleans) }
{
    let mut runs = Row::new(alloc);
    runs.push(Run {
        from: Some(0),
        to: Some(1),
    })?;
    Ok(runs)
}

/// The runs of several ranges. `NoMemory` where there is no room for them.
#[tactic(auto, using(crate::proofs::Runs::ranges))]
fn put_together(alloc: Global, ranges: &[Run]) -> Result<Row<Run>, NoMemory>
    ensures { IfOk result (λ r. map pure_run r ≡ runs_with [] (map pure_run ranges.now)) }
{
    let mut runs = Row::new(alloc);
    for range in ranges {
        if is_run(*range) {
            runs = inserted(alloc, runs.as_slice(), *range)?;
        }
    }
    Ok(runs)
}

/// Runs with one more range. `NoMemory` where there is no room for them.
#[tactic(auto, using(crate::proofs::Runs::insertions))]
fn inserted(alloc: Global, runs: &[Run], range: Run) -> Result<Row<Run>, NoMemory>
    ensures { IfOk result (λ r. map pure_run r ≡ insert_run (pure_run range) (map pure_run runs.now)) }
{
    let mut found = Row::new(alloc);
    let mut range = range;
    let mut placed = false;
    for run in runs {
        if placed {
            found.push(*run)?;
        } else if is_left(*run, range) {
            found.push(*run)?;
        } else if is_left(range, *run) {
            found.push(range)?;
            found.push(*run)?;
            placed = true;
        } else {
            range = merged(range, *run);
        }
    }
    if !placed {
        found.push(range)?;
    }
    Ok(found)
}

/// Whether a range has a member.
fn is_run(range: Run) -> bool
    ensures { result ≡ has_member (pure_run range) }
{
    match (range.from, range.to) {
        (Some(from), Some(to)) => from <= to,
        (Some(_), None) => true,
        (None, Some(_)) => true,
        (None, None) => true,
    }
}

/// Whether a range ends before another one begins, with a number missing between them.
fn is_left(range: Run, other: Run) -> bool
    ensures { result ≡ ends_before (pure_run range) (pure_run other) }
{
    match range.to {
        Some(to) => match other.from {
            Some(from) => to as i128 + 2 <= from as i128,
            None => false,
        },
        None => false,
    }
}

/// From the lower of the bounds of two ranges to the higher one.
fn merged(range: Run, other: Run) -> Run
    ensures { pure_run result ≡ together (pure_run range) (pure_run other) }
{
    Run {
        from: lower(range.from, other.from),
        to: higher(range.to, other.to),
    }
}

/// The lower of two lower bounds.
fn lower(a: Option<i64>, b: Option<i64>) -> Option<i64>
    ensures { result ≡ lower_bound a b }
{
    match (a, b) {
        (Some(a), Some(b)) => { if a <= b { Some(a) } else { Some(b) } }
        (Some(_), None) => None,
        (None, Some(_)) => None,
        (None, None) => None,
    }
}

/// The higher of two upper bounds.
fn higher(a: Option<i64>, b: Option<i64>) -> Option<i64>
    ensures { result ≡ upper_bound a b }
{
    match (a, b) {
        (Some(a), Some(b)) => { if a <= b { Some(b) } else { Some(a) } }
        (Some(_), None) => None,
        (None, Some(_)) => None,
        (None, None) => None,
    }
}

/// Whether some range holds a number; without a range, all do.
#[tactic(auto, using(crate::proofs::Runs::within))]
pub fn is_within(ranges: &[Run], number: i64) -> bool
    ensures { result ≡ in_spans (map pure_run ranges.now) number }
{
    if ranges.len() == 0 {
        return true;
    }
    let found = is_in_some(ranges, number);
    found
}

/// Whether some range holds a number.
fn is_in_some(ranges: &[Run], number: i64) -> bool
    ensures { result ≡ list_any (in_span number) (map pure_run ranges.now) }
{
    for range in ranges {
        if holds(*range, number) {
            return true;
        }
    }
    false
}

/// Whether a range holds a number.
fn holds(range: Run, number: i64) -> bool
    ensures { result ≡ in_span number (pure_run range) }
{
    let above = match range.from {
        Some(from) => from <= number,
        None => true,
    };
    let below = match range.to {
        Some(to) => number <= to,
        None => true,
    };
    above && below
}
