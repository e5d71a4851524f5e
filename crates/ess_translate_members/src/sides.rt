//! Whether declared tables are those of the plans of one side.
ghost use Rattle.std.specs.Prelude.{◌≡◌, IfOk, map, option_map};
ghost use Rattle.ess_semantics.specs.Lists.{list_or_none};
ghost use Rattle.ess_semantics.specs.Plans.{same_side};
ghost use Rattle.ess_semantics.specs.Declarations.{declarations};
ghost use Rattle.ess_core.specs.TreeViews.{pure_repr};
ghost use Rattle.ess_eval_domains.specs.ClosedViews.{pure_closed};
ghost use Rattle.ess_translate_plans.specs.Views.{pure_side, pure_plan};
ghost use Rattle.ess_translate_members_laws.specs.CellForms.{plain};
ghost use Rattle.ess_translate_members_laws.specs.PlanDomains.{tables_on, tables_of_side};
ghost use Rattle.ess_translate_cells.specs.ClosedTables.{Decides, AreTables, Behind};

use ess_core::{Boxed, NoMemory, Repr};
use ess_eval_domains::Closed;
use ess_translate_cells::{ClosedTable, behind_cell, behind_tables};
use ess_translate_plans::{Plan, Side};
use std::alloc::Global;

/// Whether declared tables are those of the plans of one side, over these domains, in order. `NoMemory` where there is no room to tell,
/// or a size can't be counted.
#[tactic(auto, using(crate::proofs::PlansInOrder::plans_in_order))]
pub(crate) fn are_declared(
    alloc: Global,
    plans: &[Plan],
    closed: &[Option<Boxed<Closed>>],
    side: Side,
    tables: &[ClosedTable],
) -> Result<bool, NoMemory>
    ensures { IfOk result (λ b. Decides b (AreTables tables.now
        (tables_of_side (pure_side side) (map pure_plan plans.now) (map (option_map pure_closed) closed.now)))) }
{
    let mut left = tables;
    for (place, plan) in plans.iter().enumerate() {
        if place >= closed.len() {
            return Ok(left.is_empty());
        }
        match behind_plan(alloc, plan, &closed[place], side, left)? {
            Some(more) => left = more,
            None => return Ok(false),
        }
    }
    Ok(left.is_empty())
}

/// The declared tables behind those of a plan over this domain, where it is one of this side: None where they don't come first.
#[tactic(auto, using(crate::proofs::PlansInOrder::one_plan))]
fn behind_plan<'a>(
    alloc: Global,
    plan: &Plan,
    closed: &Option<Boxed<Closed>>,
    side: Side,
    rest: &'a [ClosedTable],
) -> Result<Option<&'a [ClosedTable]>, NoMemory>
    ensures { IfOk result (λ o. Behind (tables_on (pure_side side) (pure_plan plan.now) (option_map pure_closed closed.now)) rest.now o) }
{
    match plan {
        Plan::Size(_, _) => {
            if is_side(Side::Givens, side) {
                let found = behind_cell(alloc, rest)?;
                Ok(found)
            } else {
                Ok(Some(rest))
            }
        }
        Plan::Value(plan) => {
            if is_side(plan.get().side, side) {
                let found = behind_value(alloc, plan.get().tree.get(), closed, rest)?;
                Ok(found)
            } else {
                Ok(Some(rest))
            }
        }
    }
}

/// The declared tables behind those of a representation of a domain, where there is one.
#[tactic(auto, using(crate::proofs::PlansInOrder::nothing_behind, crate::proofs::PlansInOrder::value_behind))]
fn behind_value<'a>(
    alloc: Global,
    tree: &Repr,
    closed: &Option<Boxed<Closed>>,
    rest: &'a [ClosedTable],
) -> Result<Option<&'a [ClosedTable]>, NoMemory>
    ensures { IfOk result (λ o. Behind (map plain
        (list_or_none (option_map (declarations (pure_repr tree.now)) (option_map pure_closed closed.now)))) rest.now o) }
{
    match closed {
        Some(domain) => {
            let found = behind_tables(alloc, tree, domain.get(), rest)?;
            Ok(found)
        }
        None => Ok(Some(rest)),
    }
}

/// Whether two sides are one.
fn is_side(a: Side, b: Side) -> bool
    ensures { result ≡ same_side (pure_side a) (pure_side b) }
{
    match a {
        Side::Givens => match b {
            Side::Givens => true,
            Side::Finds => false,
        },
        Side::Finds => match b {
            Side::Givens => false,
            Side::Finds => true,
        },
    }
}
