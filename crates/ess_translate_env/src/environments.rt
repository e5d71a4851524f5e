//! The env behind all statements under a parameter.
ghost use Rattle.std.specs.Prelude.{◌≡◌, List, true, map, IfOk, IfErr};
ghost use Rattle.ess_semantics.specs.Trees.{Stm as PureStm};
ghost use Rattle.ess_semantics.specs.Prepared.{prepared};
ghost use Rattle.ess_semantics.specs.Assignments.{nothing_given, env_of};
ghost use Rattle.ess_semantics.specs.LargeSpecifications.{parameter_is_large};
ghost use Rattle.ess_core.specs.StatementViews.{pure_stm};
ghost use Rattle.ess_core.specs.TableViews.{pure_env};
ghost use Rattle.ess_eval.specs.Stops.{is_big_or_memory};
ghost use Rattle.ess_eval.specs.declared.calls.EvalNo.TheVariants.{Big};
ghost use Rattle.ess_domains.specs.Assignments.{pure_assignment};
ghost use Rattle.ess_translate_env.specs.Behind.{behind_all, large_in};

use ess_core::{Env, Stm};
use ess_domains::{Assignment, EvalNo, go_on, no_env};
use std::alloc::Global;

/// The env behind all statements of a specification under a parameter, with no value for any find. The statements have lettings put in
/// and are resolved. `Big` only where a number that a statement declares or asks of the parameter lies outside 64 bits; else `NoMemory`.
#[tactic(auto, using(crate::proofs::WholeEnvs::whole_env, crate::proofs::WholeEnvs::whole_large))]
pub fn env_under(alloc: Global, stms: &[Stm], param: &Assignment) -> Result<Env, EvalNo>
    ensures ok { IfOk result (λ e. (S : List PureStm) → map pure_stm stms.now ≡ prepared S →
        pure_env e ≡ env_of S (pure_assignment param.now) nothing_given) }
    ensures big { result ≡ Err Big → (S : List PureStm) → map pure_stm stms.now ≡ prepared S →
        parameter_is_large S (pure_assignment param.now) ≡ true }
    ensures stops { IfErr result (λ no. is_big_or_memory no ≡ true) }
{
    let none = Assignment::nothing(alloc);
    behind_each(alloc, stms, param, &none)
}

/// The env behind statements, one after the other.
#[tactic(auto, using(crate::proofs::WholeEnvs::env_walk))]
fn behind_each(
    alloc: Global,
    stms: &[Stm],
    param: &Assignment,
    sol: &Assignment,
) -> Result<Env, EvalNo>
    ensures ok { IfOk result (λ e. pure_env e ≡ behind_all stms.now (pure_assignment param.now) (pure_assignment sol.now)) }
    ensures big { result ≡ Err Big → large_in stms.now (pure_assignment param.now) (pure_assignment sol.now) ≡ true }
    ensures stops { IfErr result (λ no. is_big_or_memory no ≡ true) }
{
    let mut env = no_env(alloc);
    for stm in stms {
        go_on(alloc, stm, param, sol, &mut env)?;
    }
    Ok(env)
}
