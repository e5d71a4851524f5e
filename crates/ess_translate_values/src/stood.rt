//! The values of all finds.
ghost use Rattle.std.specs.Prelude.{◌≡◌, List, map, option_map, IfOk};
ghost use Rattle.ess_semantics.specs.Trees.{Stm};
ghost use Rattle.ess_semantics.specs.Contexts.{Each};
ghost use Rattle.ess_semantics.specs.Assignments.{Assignment};
ghost use Rattle.ess_semantics.specs.Plans.{Options, finds_side, plans as plans_of, plans_for, value_names, values_stood_for};
ghost use Rattle.conjure_laws.specs.Premises.{here};
ghost use Rattle.ess_core.specs.TableViews.{pure_named_table};
ghost use Rattle.ess_core.specs.ValueViews.{pure_val};
ghost use Rattle.ess_eval_domains.specs.ClosedViews.{pure_closed};
ghost use Rattle.ess_translate_plans.specs.Views.{pure_plan};
ghost use Rattle.ess_translate_members_laws.specs.PlanDomains.{plan_closed};
ghost use Rattle.ess_translate_values_laws.specs.ReadyPlans.{IsReady};
ghost use Rattle.ess_translate_values.specs.StoodValues.{pure_stood};

use crate::answers::common;
use ess_core::{Boxed, NamedTable, NoMemory, Row, Text, Val};
use ess_eval_domains::Closed;
use ess_translate_plans::Plan;
use std::alloc::Global;

/// A find, with the value for which tables stand by all of its plans, where there is one.
#[derive(Drop)]
pub struct StoodFor {
    pub name: Text,
    pub value: Option<Boxed<Val>>,
}

/// Of each of these finds, in order, the value for which the tables `cells` stand by all of its plans, where they stand for one: the same
/// by each. `closed` has the domain of each plan, in the order of the plans. That these are the values of the definition is said of plans
/// that are ready, as they are where the tables are as declared. `NoMemory` where there is no room for the values, or there are fewer
/// domains than plans.
#[tactic(auto, using(crate::proofs::StoodLoops::stood_none, crate::proofs::StoodLoops::stood_more, crate::proofs::StoodLoops::stood_all))]
pub fn values_by(
    alloc: Global,
    plans: &[Plan],
    closed: &[Option<Boxed<Closed>>],
    finds: &[Text],
    cells: &[NamedTable],
) -> Result<Row<StoodFor>, NoMemory>
    ensures { IfOk result (λ r. (S : List Stm) (o : Options) (p : Assignment) → map pure_plan plans.now ≡ plans_of S o →
        map (option_map pure_closed) closed.now ≡ map (plan_closed (here S p)) (plans_of S o) → finds.now ≡ value_names finds_side S →
        Each (plans_for finds_side S o) (IsReady (here S p) (map pure_named_table cells.now)) →
        map pure_stood r ≡ values_stood_for S o p (map pure_named_table cells.now)) }
{
    let mut all = Row::with_capacity(alloc, finds.len())?;
    for name in finds {
        let value = common(alloc, plans, closed, name, cells)?;
        all.push(stood(alloc, name, value)?)?;
    }
    Ok(all)
}

/// A find with its value.
fn stood(alloc: Global, name: &Text, value: Option<Boxed<Val>>) -> Result<StoodFor, NoMemory>
    ensures { IfOk result (λ s. pure_stood s ≡ (name.now, option_map pure_val value)) }
{
    Ok(StoodFor {
        name: name.copy(alloc)?,
        value,
    })
}
