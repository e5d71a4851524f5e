ghost use Rattle.std.specs.Prelude.{◌≡◌, IfOk, true, false};
ghost use Rattle.std.specs.List.{list_any};
ghost use Rattle.ess_semantics.specs.Order.{same_int, same_ints};
ghost use Rattle.ess_semantics.specs.Tables.{is_cell};
ghost use Rattle.eprime_eval.specs.ClosedDomains.{pure_closed};
ghost use Rattle.eprime_verdicts.specs.ClosedDecls.{has_axis, are_over};

use eprime_eval::{Closed, Run, numbers_of};
use ess_rows::{NoMemory, Row};
use std::alloc::Global;
use std::cmp::Ordering;

/// Whether axes are the members of domains, each of its own. `NoMemory` where there is no room to tell.
#[tactic(auto, using(crate::proofs::TablesFit::overs))]
pub(crate) fn axes_fit(
    alloc: Global,
    domains: &[Closed],
    axes: &[Row<i64>],
) -> Result<bool, NoMemory>
    ensures { IfOk result (λ b. b ≡ are_over domains.now axes.now) }
{
    if domains.len() != axes.len() {
        return Ok(false);
    }
    for (place, domain) in domains.iter().enumerate() {
        if !has_members(alloc, domain, axes[place].as_slice())? {
            return Ok(false);
        }
    }
    Ok(true)
}

/// Whether numbers are the members of a domain, rising. The members are listed only where no range has more of them than there are
/// numbers. `NoMemory` where there is no room to tell.
fn has_members(alloc: Global, domain: &Closed, numbers: &[i64]) -> Result<bool, NoMemory>
    ensures { IfOk result (λ b. b ≡ has_axis domain.now numbers.now) }
{
    if lacks_member(alloc, domain, numbers)? {
        return Ok(false);
    }
    match numbers_of(alloc, domain)? {
        Some(members) => Ok(same_numbers(members.as_slice(), numbers)),
        None => Ok(false),
    }
}

/// Whether two lists of numbers are equal.
fn same_numbers(a: &[i64], b: &[i64]) -> bool
    ensures { result ≡ same_ints a.now b.now }
{
    a.cmp(b) == Ordering::Equal
}

/// Whether a range with more members than there are numbers is among the ranges of a domain: then one of them isn't among the
/// numbers. `NoMemory` where there is no room to tell.
#[tactic(auto, using(crate::proofs::ListedMembers::other_axis))]
fn lacks_member(alloc: Global, domain: &Closed, numbers: &[i64]) -> Result<bool, NoMemory>
    ensures { IfOk result (λ b. b ≡ true → has_axis domain.now numbers.now ≡ false) }
{
    let Closed::Numbers(runs) = domain else {
        return Ok(false);
    };
    for run in runs.as_slice() {
        if let Some(member) = absent(alloc, *run, numbers)? {
            if domain.holds(member) && !is_among(numbers, member) {
                return Ok(true);
            }
        }
    }
    Ok(false)
}

/// Whether a number is among others.
fn is_among(numbers: &[i64], number: i64) -> bool
    ensures { result ≡ list_any (same_int number) numbers.now }
{
    numbers.iter().any(|other| number == *other)
}

/// One of the first members of a range that isn't among the numbers, where it has more members than there are numbers.
fn absent(alloc: Global, run: Run, numbers: &[i64]) -> Result<Option<i64>, NoMemory> {
    match (run.from, run.to) {
        (Some(low), Some(high)) => {
            if high as i128 - (low as i128) < numbers.len() as i128 {
                return Ok(None);
            }
            let marks = marked(alloc, low, numbers)?;
            Ok(first_unmarked(low, marks.as_slice()))
        }
        _ => Ok(None),
    }
}

/// One mark more than there are numbers: at each place, whether the number that lies so far above the low end is there.
fn marked(alloc: Global, low: i64, numbers: &[i64]) -> Result<Vec<bool>, NoMemory> {
    let mut marks = Vec::new(alloc);
    marks.push(false)?;
    for _ in numbers {
        marks.push(false)?;
    }
    for number in numbers {
        let place = *number as i128 - low as i128;
        if place >= 0 && place < marks.len() as i128 {
            marks[place as usize] = true;
        }
    }
    Ok(marks)
}

/// The number at the first place without a mark.
fn first_unmarked(low: i64, marks: &[bool]) -> Option<i64> {
    for (place, mark) in marks.iter().enumerate() {
        if !*mark {
            return i64::try_from(low as i128 + place as i128).ok();
        }
    }
    None
}
