//! The closed domains of plans.
ghost use Rattle.std.specs.Prelude.{◌≡◌, [], ◌∷◌, ◌++◌, true, map, option_map, IfOk, IfErr, OnOk};
ghost use Rattle.std.specs.List.{list_any};
ghost use Rattle.ess_semantics.specs.LargeSpecifications.{plan_is_large};
ghost use Rattle.ess_core.specs.TableViews.{pure_env};
ghost use Rattle.ess_eval.specs.Stops.{is_big_or_memory};
ghost use Rattle.ess_eval.specs.declared.calls.EvalNo.TheVariants.{Big, NoMemory};
ghost use Rattle.ess_eval_domains.specs.ClosedViews.{pure_closed};
ghost use Rattle.ess_translate_plans.specs.Views.{pure_plan};
ghost use Rattle.ess_translate_members_laws.specs.PlanDomains.{plan_closed};

use ess_core::{Boxed, Env, Row};
use ess_domains::EvalNo;
use ess_eval::domain_of;
use ess_eval_domains::Closed;
use ess_translate_plans::Plan;
use std::alloc::Global;

/// The domain of each plan of a given or find under an env, in the order of the plans: none where a number in it has no meaning, and
/// none for a given enumerated type. `Big` only where a number in one of the domains lies outside 64 bits; else `NoMemory`.
#[tactic(auto, using(crate::proofs::PlanRows::plans_more, crate::proofs::PlanRows::plans_all, crate::proofs::PlanRows::large_here))]
pub fn closed_plans(
    alloc: Global,
    plans: &[Plan],
    env: &Env,
) -> Result<Row<Option<Boxed<Closed>>>, EvalNo>
    ensures ok { IfOk result (λ ds. map (option_map pure_closed) ds ≡ map (plan_closed (pure_env env.now)) (map pure_plan plans.now)) }
    ensures big { result ≡ Err Big → list_any (plan_is_large (pure_env env.now)) (map pure_plan plans.now) ≡ true }
    ensures stops { IfErr result (λ no. is_big_or_memory no ≡ true) }
{
    let mut all = Row::new(alloc);
    for plan in plans {
        let domain = closed_plan(alloc, plan, env)?;
        put_behind(&mut all, domain)?;
    }
    Ok(all)
}

/// The domain of a plan.
#[tactic(auto, using(crate::proofs::PlanRows::large_with))]
fn closed_plan(alloc: Global, plan: &Plan, env: &Env) -> Result<Option<Boxed<Closed>>, EvalNo>
    ensures ok { IfOk result (λ o. option_map pure_closed o ≡ plan_closed (pure_env env.now) (pure_plan plan.now)) }
    ensures big { result ≡ Err Big → plan_is_large (pure_env env.now) (pure_plan plan.now) ≡ true }
    ensures stops { IfErr result (λ no. is_big_or_memory no ≡ true) }
{
    match plan {
        Plan::Size(_, _) => Ok(None),
        Plan::Value(plan) => domain_of(alloc, plan.get().dom.get(), env),
    }
}

/// Puts a domain behind the others.
fn put_behind(
    all: &mut Row<Option<Boxed<Closed>>>,
    domain: Option<Boxed<Closed>>,
) -> Result<(), EvalNo>
    ensures ok { OnOk result (all.new ≡ all.old ++ domain ∷ []) }
    ensures no { IfErr result (λ e. e ≡ NoMemory) }
{
    match all.push(domain) {
        Ok(_) => Ok(()),
        Err(_) => Err(EvalNo::NoMemory),
    }
}
