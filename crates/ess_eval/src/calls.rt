ghost use Rattle.std.specs.Prelude.{◌≡◌, IfOk, IfErr, true, option_map};
ghost use Rattle.ess_semantics.specs.Meaning.{meaning, is_true, domain_of as domain_meant};
ghost use Rattle.ess_semantics.specs.Large.{is_large, is_large_dom};
ghost use Rattle.ess_core.specs.ValueViews.{pure_val};
ghost use Rattle.ess_core.specs.TreeViews.{pure_ex, pure_dom};
ghost use Rattle.ess_core.specs.TableViews.{pure_env};
ghost use Rattle.ess_eval_domains.specs.ClosedViews.{pure_closed};
ghost use Rattle.ess_eval.specs.Stops.{is_big_or_memory};
ghost use Rattle.ess_eval.specs.declared.calls.EvalNo.TheVariants.{Big};

use crate::closing::closed_at;
use crate::evaluating::value_at;
use crate::reading::truth_of;
use crate::risen::{read_for, unread};
use ess_core::{Boxed, Dom, Env, Ex, Row, Val};
use ess_eval_domains::Closed;
use ess_eval_operators::OperateNo;
use std::alloc::Global;

/// Why there is no answer.
#[derive(Clone, Copy, Debug, PartialEq, Eq)]
pub enum EvalNo {
    /// Something that must have a value has none. Evaluation answers this never: there `None` says it.
    Undefined,
    /// A number on the way to the answer lies below -(2^63 - 1) or above 2^63 - 1.
    Big,
    /// Tables would have this many cells, which is more than may be made. Evaluation answers this never.
    TooManyCells(u128),
    /// There is no room for the answer.
    NoMemory,
}

/// What an expression means, or `None` where a term in it is undefined. `Big` where a number on the way lies outside 64
/// bits; `NoMemory` where there is no room, and at a view that names no table, which no expression of a specification has.
pub fn value(alloc: Global, ex: &Ex, env: &Env) -> Result<Option<Val>, EvalNo>
    ensures ok { IfOk result (λ o. option_map pure_val o ≡ meaning (pure_ex ex.now) (pure_env env.now)) }
    ensures big { result ≡ Err Big → is_large (pure_ex ex.now) (pure_env env.now) ≡ true }
    ensures stops { IfErr result (λ no. is_big_or_memory no ≡ true) }
{
    let env = match read_for(alloc, ex, env) {
        Ok(env) => env,
        Err(_) => return Err(EvalNo::NoMemory),
    };
    let mut bound = Row::new(alloc);
    match value_at(alloc, ex, &env, &mut bound) {
        Ok(found) => Ok(found),
        Err(OperateNo::Big) => Err(EvalNo::Big),
        Err(OperateNo::NoMemory) => Err(EvalNo::NoMemory),
    }
}

/// Whether an expression is true: false where it is false, no truth value, or undefined. The errors are those of `value`.
pub fn truth(alloc: Global, ex: &Ex, env: &Env) -> Result<bool, EvalNo>
    ensures ok { IfOk result (λ b. b ≡ is_true (meaning (pure_ex ex.now) (pure_env env.now))) }
    ensures big { result ≡ Err Big → is_large (pure_ex ex.now) (pure_env env.now) ≡ true }
    ensures stops { IfErr result (λ no. is_big_or_memory no ≡ true) }
{
    let env = match read_for(alloc, ex, env) {
        Ok(env) => env,
        Err(_) => return Err(EvalNo::NoMemory),
    };
    let mut bound = Row::new(alloc);
    match value_at(alloc, ex, &env, &mut bound) {
        Ok(found) => Ok(truth_of(found)),
        Err(OperateNo::Big) => Err(EvalNo::Big),
        Err(OperateNo::NoMemory) => Err(EvalNo::NoMemory),
    }
}

/// The domain that a domain expression denotes, or `None` where a bound, an attribute value or a named type in it has no
/// meaning. The errors are those of `value`.
pub fn domain_of(alloc: Global, dom: &Dom, env: &Env) -> Result<Option<Boxed<Closed>>, EvalNo>
    ensures ok { IfOk result (λ o. option_map pure_closed o ≡ domain_meant (pure_dom dom.now) (pure_env env.now)) }
    ensures big { result ≡ Err Big → is_large_dom (pure_dom dom.now) (pure_env env.now) ≡ true }
    ensures stops { IfErr result (λ no. is_big_or_memory no ≡ true) }
{
    let env = unread(alloc, env);
    let mut bound = Row::new(alloc);
    match closed_at(alloc, dom, &env, &mut bound) {
        Ok(domain) => Ok(domain),
        Err(OperateNo::Big) => Err(EvalNo::Big),
        Err(OperateNo::NoMemory) => Err(EvalNo::NoMemory),
    }
}
