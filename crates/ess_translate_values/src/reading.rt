//! The value for which the tables of one plan stand.
ghost use Rattle.std.specs.Prelude.{◌≡◌, true, map, option_map, IfOk};
ghost use Rattle.ess_semantics.specs.Meaning.{Env, domain_of};
ghost use Rattle.ess_semantics.specs.Positions.{with_types as types_put};
ghost use Rattle.ess_semantics.specs.Plans.{value_with_types, value_by_plan};
ghost use Rattle.ess_core.specs.TableViews.{pure_named_table};
ghost use Rattle.ess_core.specs.TreeViews.{pure_repr, pure_dom};
ghost use Rattle.ess_core.specs.ValueViews.{pure_val};
ghost use Rattle.ess_eval_domains.specs.ClosedViews.{pure_closed};
ghost use Rattle.ess_repr_tables.specs.SlotViews.{pure_tables};
ghost use Rattle.ess_translate_positions_laws.specs.Forms.{has_form};
ghost use Rattle.ess_translate_plans.specs.Views.{pure_value_plan};
ghost use Rattle.ess_translate_values_laws.specs.ReadyPlans.{AreReady, IsReady};

use crate::lookups::tables_named;
use ess_core::{Boxed, NamedTable, NoMemory, Repr, Table, Val};
use ess_eval_domains::Closed;
use ess_repr_positions::{domain_with_positions, with_types};
use ess_translate_layers::up_all;
use ess_translate_plans::ValuePlan;
use std::alloc::Global;

/// The value for which the tables of a plan with this domain stand; nothing where they stand for none, one of them isn't there, or there
/// is no domain. `NoMemory` where there is no room for it.
#[tactic(auto, using(crate::proofs::PlanValues::value_read, crate::proofs::PlanValues::no_tables_read, crate::proofs::PlanValues::no_domain_read))]
pub(crate) fn by_plan(
    alloc: Global,
    plan: &ValuePlan,
    domain: &Option<Boxed<Closed>>,
    cells: &[NamedTable],
) -> Result<Option<Boxed<Val>>, NoMemory>
    ensures { IfOk result (λ o. (env : Env) → option_map pure_closed domain.now ≡ domain_of (pure_dom plan.now.dom) env →
        IsReady env (map pure_named_table cells.now) (pure_value_plan plan.now) →
        option_map pure_val o ≡ value_by_plan env (map pure_named_table cells.now) (pure_value_plan plan.now)) }
{
    match domain {
        Some(domain) => match tables_named(alloc, plan.tables.as_slice(), cells)? {
            Some(tables) => Ok(stood_for(alloc, plan.tree.get(), domain.get(), tables.as_slice())?),
            None => Ok(None),
        },
        None => Ok(None),
    }
}

/// The value for which tables stand, with the domain's types put back.
#[tactic(auto, using(crate::proofs::PlanValues::types_there, crate::proofs::PlanValues::no_value_there))]
fn stood_for(
    alloc: Global,
    repr: &Repr,
    domain: &Closed,
    tables: &[Table],
) -> Result<Option<Boxed<Val>>, NoMemory>
    ensures { IfOk result (λ o. AreReady (pure_repr repr.now) (pure_closed domain.now) (pure_tables tables.now) →
        option_map pure_val o ≡ value_with_types (pure_repr repr.now) (pure_closed domain.now) (pure_tables tables.now)) }
{
    let plain = domain_with_positions(alloc, domain)?;
    let found = up_all(alloc, repr, &plain, tables);
    drop(plain);
    match found? {
        Some(val) => Ok(typed(alloc, domain, val)?),
        None => Ok(None),
    }
}

/// A value of the domain's form with its types.
fn typed(alloc: Global, domain: &Closed, val: Val) -> Result<Option<Boxed<Val>>, NoMemory>
    ensures { IfOk result (λ o. has_form (pure_closed domain.now) (pure_val val) ≡ true →
        option_map pure_val o ≡ types_put (pure_closed domain.now) (pure_val val)) }
{
    let found = with_types(alloc, domain, &val);
    drop(val);
    match found? {
        Some(val) => Ok(Some(Boxed::new(alloc, val)?)),
        None => Ok(None),
    }
}
