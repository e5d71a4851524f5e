//! How many cells the tables of a name have, over all of its plans.
ghost use Rattle.std.specs.Prelude.{◌≡◌, ◌+◌, map, option_map, IfOk};
ghost use Rattle.ess_semantics.specs.Declarations.{cell_count};
ghost use Rattle.ess_semantics.specs.ModelTrees.{Header};
ghost use Rattle.ess_semantics.specs.Assignments as pure;
ghost use Rattle.ess_semantics.specs.Assignments.{nothing_given, env_of};
ghost use Rattle.ess_semantics.specs.Plans.{is_plan_for, plans as plans_meant};
ghost use Rattle.ess_core.specs.TreeViews.{pure_repr};
ghost use Rattle.ess_eval_domains.specs.ClosedViews.{pure_closed};
ghost use Rattle.ess_domains_cells.specs.Kept.{kept};
ghost use Rattle.ess_translate_header_laws.specs.Headers.{IsOurs};
ghost use Rattle.ess_translate_members_laws.specs.PlanDomains.{plan_closed};
ghost use Rattle.ess_translate_given_laws.specs.Counts.{too_many};
ghost use Rattle.ess_translate_plans.specs.Views.{pure_plan};
ghost use Rattle.ess_translate_given.specs.KeptCounts.{count_at, counts_of, run_from, kept_beside};
ghost use Rattle.ess_translate_given.specs.KeptCounts.{first_kept_above, total_above, named_total};

use ess_core::{Boxed, NoMemory, Repr, Row, Text};
use ess_domains::EvalNo;
use ess_domains_cells::counted_cells;
use ess_eval_domains::Closed;
use ess_translate_plans::Plan;
use std::alloc::Global;
use std::cmp::Ordering;

/// The most cells that the tables of one given or find may have: 2^24.
const MOST_CELLS: u128 = 16777216;

/// The greatest number of cells that is told apart: 2^100.
const LIMIT: u128 = 1267650600228229401496703205376;

/// The first given or find of a header whose tables have too many cells, over all of its representations, with their number, which is
/// kept at 2^100. No axis is listed. The plans of a name stand one behind the other, so one pass over them finds it. `NoMemory` where
/// there is no room for the numbers.
#[tactic(auto, using(crate::proofs::HeaderCounts::first_found))]
pub fn first_too_many(
    alloc: Global,
    plans: &[Plan],
    closed: &[Option<Boxed<Closed>>],
) -> Result<Option<(Text, u128)>, NoMemory>
    ensures { IfOk result (λ o. (H : Header) (p : pure.Assignment) → IsOurs H → map pure_plan plans.now ≡ plans_meant H.statements H.reprs →
        map (option_map pure_closed) closed.now ≡ map (plan_closed (env_of H.statements p nothing_given)) (plans_meant H.statements H.reprs) →
        o ≡ option_map kept_beside (too_many H p)) }
{
    let counts = counts_in(alloc, plans, closed)?;
    first_above(alloc, plans, counts.as_slice())
}

/// The number of cells of each plan, kept.
#[tactic(auto, using(crate::proofs::KeptLoops::counting))]
fn counts_in(
    alloc: Global,
    plans: &[Plan],
    closed: &[Option<Boxed<Closed>>],
) -> Result<Row<u128>, NoMemory>
    ensures { IfOk result (λ ns. ns ≡ counts_of (map pure_plan plans.now) (map (option_map pure_closed) closed.now)) }
{
    let mut counts = Row::with_capacity(alloc, plans.len())?;
    for (i, plan) in plans.iter().enumerate() {
        if i >= closed.len() {
            return Ok(counts);
        }
        counts.push(count_of(plan, &closed[i]))?;
    }
    Ok(counts)
}

/// The number of cells of a plan with its domain, kept.
fn count_of(plan: &Plan, closed: &Option<Boxed<Closed>>) -> u128
    ensures { result ≡ kept (count_at (pure_plan plan.now) (option_map pure_closed closed.now)) }
{
    match plan {
        Plan::Size(_, _) => 1,
        Plan::Value(plan) => match closed {
            Some(domain) => cells_in(plan.get().tree.get(), domain.get()),
            None => 0,
        },
    }
}

/// The number of cells of a representation of a domain, kept.
#[tactic(auto, using(crate::proofs::KeptLoops::few_kept))]
fn cells_in(repr: &Repr, domain: &Closed) -> u128
    ensures { result ≡ kept (cell_count (pure_repr repr.now) (pure_closed domain.now)) }
{
    match counted_cells(repr, domain) {
        Ok(count) => count as u128,
        Err(EvalNo::TooManyCells(count)) => count,
        Err(_) => 0,
    }
}

/// The first plan whose name has too many cells from there on.
#[tactic(auto, using(crate::proofs::KeptLoops::finding))]
fn first_above(
    alloc: Global,
    plans: &[Plan],
    counts: &[u128],
) -> Result<Option<(Text, u128)>, NoMemory>
    ensures { IfOk result (λ o. o ≡ first_kept_above (map pure_plan plans.now) counts.now) }
{
    for (i, plan) in plans.iter().enumerate() {
        if i >= counts.len() {
            return Ok(None);
        }
        match above(plan, counts[i], &plans[i + 1..], &counts[i + 1..]) {
            Some(total) => return Ok(found(alloc, plan, total)?),
            None => {}
        }
    }
    Ok(None)
}

/// The number of a plan with those behind it of its name, where it is above the limit.
#[tactic(auto, using(crate::proofs::KeptLoops::above_few, crate::proofs::KeptLoops::above_many))]
fn above(plan: &Plan, count: u128, plans: &[Plan], counts: &[u128]) -> Option<u128>
    ensures { result ≡ total_above (pure_plan plan.now) count (map pure_plan plans.now) counts.now }
{
    match plan {
        Plan::Size(_, _) => None,
        Plan::Value(own) => {
            let total = run(&own.get().name, count, plans, counts);
            if total > MOST_CELLS {
                Some(total)
            } else {
                None
            }
        }
    }
}

/// The name of a plan with a number; none for a given enumerated type.
fn found(alloc: Global, plan: &Plan, total: u128) -> Result<Option<(Text, u128)>, NoMemory>
    ensures { IfOk result (λ o. o ≡ named_total (pure_plan plan.now) total) }
{
    match plan {
        Plan::Size(_, _) => Ok(None),
        Plan::Value(plan) => Ok(Some((plan.get().name.copy(alloc)?, total))),
    }
}

/// A number with those of the plans of a name with which the list begins, kept.
#[tactic(auto, using(crate::proofs::KeptLoops::running))]
fn run(name: &Text, first: u128, plans: &[Plan], counts: &[u128]) -> u128
    ensures { result ≡ run_from name.now first (map pure_plan plans.now) counts.now }
{
    let mut total = first;
    for (i, plan) in plans.iter().enumerate() {
        if i >= counts.len() {
            return total;
        }
        if !is_for(name, plan) {
            return total;
        }
        total = sum(total, counts[i]);
    }
    total
}

/// Whether a plan is one of this given or find.
fn is_for(name: &Text, plan: &Plan) -> bool
    ensures { result ≡ is_plan_for name.now (pure_plan plan.now) }
{
    match plan {
        Plan::Size(_, _) => false,
        Plan::Value(plan) => plan.get().name.cmp(name) == Ordering::Equal,
    }
}

/// The sum of two numbers, kept.
fn sum(a: u128, b: u128) -> u128
    ensures { result ≡ kept (a + b) }
{
    match a.checked_add(b) {
        Some(sum) => { if sum <= LIMIT { sum } else { LIMIT } }
        None => LIMIT,
    }
}
