ghost use Rattle.std.specs.Prelude.{◌≡◌, ◌||◌, true, option_map, is_some, IfOk, IfErr};
ghost use Rattle.std.specs.Option.{option_copied};
ghost use Rattle.ess_semantics.specs.Lists.{is_some_and};
ghost use Rattle.ess_semantics.specs.Meaning.{meaning};
ghost use Rattle.ess_semantics.specs.Parameters.{is_member as is_member_under};
ghost use Rattle.ess_semantics.specs.Solutions.{find_is_member, constraint_holds, objective_has_value};
ghost use Rattle.ess_semantics.specs.Large.{is_large, is_large_dom};
ghost use Rattle.ess_semantics.specs.LargeSpecifications.{declares_large_number, asks_large_number};
ghost use Rattle.ess_core.specs.ValueViews.{pure_val};
ghost use Rattle.ess_core.specs.TreeViews.{pure_ex, pure_dom};
ghost use Rattle.ess_core.specs.TableViews.{pure_env};
ghost use Rattle.ess_core.specs.StatementViews.{pure_stm};
ghost use Rattle.ess_eval.specs.Stops.{is_big_or_memory};
ghost use Rattle.ess_eval.specs.declared.calls.EvalNo.TheVariants.{Big};
ghost use Rattle.ess_domains.specs.Assignments.{pure_assignment};

use crate::assignments::Assignment;
use crate::rooms::with_room;
use ess_core::{Dom, Env, Ex, Stm, Val};
use ess_domains_members::is_member;
use ess_eval::{EvalNo, domain_of, truth, value};
use std::alloc::Global;

/// What a solution meets at a statement. What the statement doesn't ask for is met.
#[derive(Clone, Copy, Debug, PartialEq, Eq)]
pub(crate) struct Judged {
    /// Whether the value of the find is a member of its domain.
    pub member: bool,
    /// Whether the constraint is true.
    pub holds: bool,
    /// Whether the objective has a value.
    pub has_value: bool,
}

/// What a solution meets at a statement, where env is that before the statement.
pub(crate) fn judge(alloc: Global, stm: &Stm, sol: &Assignment, env: &Env) -> Result<Judged, EvalNo>
    ensures member { IfOk result (λ j. j.member ≡ find_is_member (pure_assignment sol.now) (pure_stm stm.now) (pure_env env.now)) }
    ensures holds { IfOk result (λ j. j.holds ≡ constraint_holds (pure_stm stm.now) (pure_env env.now)) }
    ensures has_value { IfOk result (λ j. j.has_value ≡ objective_has_value (pure_stm stm.now) (pure_env env.now)) }
    ensures big { result ≡ Err Big
        → declares_large_number (pure_stm stm.now) (pure_env env.now) || asks_large_number (pure_stm stm.now) (pure_env env.now) ≡ true }
    ensures stops { IfErr result (λ no. is_big_or_memory no ≡ true) }
{
    let mut judged = Judged {
        member: true,
        holds: true,
        has_value: true,
    };
    match stm {
        Stm::Find(name, dom) => {
            judged.member = is_member_of(alloc, dom.get(), sol.value_of(name), env)?;
        }
        Stm::SuchThat(test) => judged.holds = truth(alloc, test.get(), env)?,
        Stm::Minimise(goal) => judged.has_value = has_value(alloc, goal.get(), env)?,
        Stm::Maximise(goal) => judged.has_value = has_value(alloc, goal.get(), env)?,
        _ => {}
    }
    Ok(judged)
}

/// Whether the value of a find is there and a member of its domain.
fn is_member_of(alloc: Global, dom: &Dom, val: Option<&Val>, env: &Env) -> Result<bool, EvalNo>
    ensures ok { IfOk result (λ b. b
        ≡ is_some_and (option_map pure_val (option_copied val.entry)) (is_member_under (pure_dom dom.now) (pure_env env.now))) }
    ensures big { result ≡ Err Big → is_large_dom (pure_dom dom.now) (pure_env env.now) ≡ true }
    ensures stops { IfErr result (λ no. is_big_or_memory no ≡ true) }
{
    match val {
        None => Ok(false),
        Some(val) => match domain_of(alloc, dom, env)? {
            None => Ok(false),
            Some(domain) => with_room(is_member(alloc, domain.get(), val)),
        },
    }
}

/// Whether an objective has a value.
fn has_value(alloc: Global, goal: &Ex, env: &Env) -> Result<bool, EvalNo>
    ensures ok { IfOk result (λ b. b ≡ is_some (meaning (pure_ex goal.now) (pure_env env.now))) }
    ensures big { result ≡ Err Big → is_large (pure_ex goal.now) (pure_env env.now) ≡ true }
    ensures stops { IfErr result (λ no. is_big_or_memory no ≡ true) }
{
    let found = value(alloc, goal, env)?;
    let there = found.is_some();
    drop(found);
    Ok(there)
}
