//! The tables of all givens.
ghost use Rattle.std.specs.Prelude.{◌≡◌, map, option_map, IfOk};
ghost use Rattle.ess_semantics.specs.ModelTrees.{Header};
ghost use Rattle.ess_semantics.specs.Assignments.{nothing_given, env_of};
ghost use Rattle.ess_semantics.specs.Parameters.{Param};
ghost use Rattle.ess_semantics.specs.Plans.{plans as plans_meant, given_tables as tables_meant};
ghost use Rattle.ess_core.specs.TableViews.{pure_named_table};
ghost use Rattle.ess_eval_domains.specs.ClosedViews.{pure_closed};
ghost use Rattle.ess_domains.specs.Assignments.{pure_assignment};
ghost use Rattle.ess_translate_header_laws.specs.Headers.{IsOurs};
ghost use Rattle.ess_translate_members_laws.specs.PlanDomains.{plan_closed};
ghost use Rattle.ess_translate_given_laws.specs.Ready.{Ready};
ghost use Rattle.ess_translate_plans.specs.Views.{pure_plan};
ghost use Rattle.ess_translate_given.specs.TablesBehind.{AreTables};

use crate::plan_tables::tables_of;
use ess_core::{Boxed, NamedTable, NoMemory, Row};
use ess_domains::Assignment;
use ess_eval_domains::Closed;
use ess_translate_plans::Plan;
use std::alloc::Global;

/// The given tables of a parameter of a header, by its plans and their domains, in order: of each given those of each of its
/// representations, of each given enumerated type the cell with its number of values. A parameter has them; none are answered where a
/// given has no value or a plan no domain. Who asks has counted the cells. `NoMemory` where there is no room for them.
pub fn given_tables(
    alloc: Global,
    plans: &[Plan],
    closed: &[Option<Boxed<Closed>>],
    param: &Assignment,
) -> Result<Option<Row<NamedTable>>, NoMemory>
    ensures { IfOk result (λ o. (H : Header) → IsOurs H → Ready H.statements → Param H.statements (pure_assignment param.now) →
        map pure_plan plans.now ≡ plans_meant H.statements H.reprs →
        map (option_map pure_closed) closed.now
        ≡ map (plan_closed (env_of H.statements (pure_assignment param.now) nothing_given)) (plans_meant H.statements H.reprs) →
        option_map (map pure_named_table) o ≡ tables_meant H.statements H.reprs (pure_assignment param.now)) }
{
    all_tables(alloc, plans, closed, param)
}

/// The tables of plans, one behind the other.
#[tactic(auto, using(crate::proofs::TablesInTurn::turns))]
fn all_tables(
    alloc: Global,
    plans: &[Plan],
    closed: &[Option<Boxed<Closed>>],
    param: &Assignment,
) -> Result<Option<Row<NamedTable>>, NoMemory>
    ensures { IfOk result (AreTables (pure_assignment param.now) (map pure_plan plans.now) (map (option_map pure_closed) closed.now)) }
{
    let mut all = Row::new(alloc);
    for (i, plan) in plans.iter().enumerate() {
        if i >= closed.len() {
            return Ok(None);
        }
        match tables_of(alloc, plan, &closed[i], param)? {
            Some(tables) => {
                let mut tables = tables;
                all.append(&mut tables)?;
            }
            None => return Ok(None),
        }
    }
    Ok(Some(all))
}
