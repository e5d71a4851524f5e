ghost use Rattle.std.specs.Prelude.{◌≡◌, List, true, map, min, IfOk, IfErr};
ghost use Rattle.ess_semantics.specs.Trees.{Stm as PureStm};
ghost use Rattle.ess_semantics.specs.Prepared.{prepared};
ghost use Rattle.ess_semantics.specs.Assignments.{nothing_given};
ghost use Rattle.ess_semantics.specs.Parameters.{param_verdict, first_verdict as first_verdict_over};
ghost use Rattle.ess_semantics.specs.LargeSpecifications.{parameter_is_large};
ghost use Rattle.ess_core.specs.StatementViews.{pure_stm};
ghost use Rattle.ess_eval.specs.Stops.{is_big_or_memory};
ghost use Rattle.ess_eval.specs.declared.calls.EvalNo.TheVariants.{Big};
ghost use Rattle.ess_domains.specs.Assignments.{pure_assignment};
ghost use Rattle.ess_domains.specs.Verdicts.{pure_param_verdict, cut_param, largest};
ghost use Rattle.ess_domains.specs.Faults.{told};
ghost use Rattle.ess_domains.specs.Prepared.{places, sizes, extra_given_of, param_verdict_over, has_large_declared};
ghost use Rattle.ess_domains.specs.Walked.{pure_stms, walked};

use crate::assignments::Assignment;
use crate::environments::{go_on, no_env};
use crate::extra_values::extra_given;
use crate::extras::extra_type;
use crate::faults::{Fault, fault_at};
use crate::missing::missing_given;
use crate::rooms::with_room;
use crate::sizes::sizes_of;
use crate::verdicts::ParamVerdict;
use ess_core::{Stm, Text};
use ess_eval::EvalNo;
use std::alloc::Global;

/// The verdict on a parameter of a specification, whose statements have lettings put in and are resolved: first a missing
/// given, then a name too many, then statement by statement. `Big` where a number on the way lies outside 64 bits;
/// `NoMemory` where there is no room for what the statements declare.
#[tactic(auto, using(crate::proofs::Told::param_ok, crate::proofs::PreparedNames::param_large))]
pub fn param_fits(alloc: Global, stms: &[Stm], param: &Assignment) -> Result<ParamVerdict, EvalNo>
    ensures ok { IfOk result (λ v. (S : List PureStm) → map pure_stm stms.now ≡ prepared S → pure_param_verdict v
        ≡ cut_param (param_verdict S (pure_assignment param.now))) }
    ensures big { result ≡ Err Big → (S : List PureStm) → map pure_stm stms.now ≡ prepared S
        → parameter_is_large S (pure_assignment param.now) ≡ true }
    ensures stops { IfErr result (λ no. is_big_or_memory no ≡ true) }
{
    fits(alloc, stms, param)
}

/// The verdict on a parameter, as the statements stand.
fn fits(alloc: Global, stms: &[Stm], param: &Assignment) -> Result<ParamVerdict, EvalNo>
    ensures ok { IfOk result (λ v. pure_param_verdict v
        ≡ cut_param (param_verdict_over (pure_stms stms.now) (pure_assignment param.now))) }
    ensures big { result ≡ Err Big
        → has_large_declared (places (pure_stms stms.now) (pure_assignment param.now) nothing_given) ≡ true }
    ensures stops { IfErr result (λ no. is_big_or_memory no ≡ true) }
{
    if let Some(name) = missing_given(stms, param) {
        return Ok(ParamVerdict::Missing(with_room(name.copy(alloc))?));
    }
    let none = Assignment::nothing(alloc);
    match extra_name(alloc, stms, param, &none)? {
        Some(name) => Ok(ParamVerdict::Extra(name)),
        None => first_verdict(alloc, stms, param, &none),
    }
}

/// The first name of a parameter that is too many, under values of the finds: types come before values.
fn extra_name(
    alloc: Global,
    stms: &[Stm],
    param: &Assignment,
    sol: &Assignment,
) -> Result<Option<Text>, EvalNo>
    ensures ok { IfOk result (λ o. o ≡ extra_given_of (pure_stms stms.now) (sizes (pure_stms stms.now) (pure_assignment param.now)
        (pure_assignment sol.now)) (pure_assignment param.now)) }
    ensures big { result ≡ Err Big → has_large_declared (walked stms.now param.now sol.now) ≡ true }
    ensures stops { IfErr result (λ no. is_big_or_memory no ≡ true) }
{
    if !param.types.is_empty() {
        let sizes = sizes_of(alloc, stms, param, sol)?;
        match with_room(extra_type(alloc, stms, sizes.as_slice(), param.types.as_slice()))? {
            Some(name) => return Ok(Some(name)),
            None => {}
        }
    }
    match extra_given(stms, param.types.as_slice(), param.vals.as_slice()) {
        Some(name) => Ok(Some(with_room(name.copy(alloc))?)),
        None => Ok(None),
    }
}

/// The verdict of the first statement that a parameter fails, under values of the finds.
#[tactic(auto, using(crate::proofs::Walks::parameter_walk))]
fn first_verdict(
    alloc: Global,
    stms: &[Stm],
    param: &Assignment,
    sol: &Assignment,
) -> Result<ParamVerdict, EvalNo>
    ensures ok { IfOk result (λ v. pure_param_verdict v
        ≡ cut_param (first_verdict_over (pure_assignment param.now) (walked stms.now param.now sol.now))) }
    ensures big { result ≡ Err Big → has_large_declared (walked stms.now param.now sol.now) ≡ true }
    ensures stops { IfErr result (λ no. is_big_or_memory no ≡ true) }
{
    let mut env = no_env(alloc);
    for (i, stm) in stms.iter().enumerate() {
        match fault_at(alloc, stm, param, &env)? {
            Some(fault) => return Ok(verdict_of(fault, i as u64 + 1)),
            None => {}
        }
        go_on(alloc, stm, param, sol, &mut env)?;
    }
    Ok(ParamVerdict::Fits)
}

/// The verdict that a fault at a statement is.
fn verdict_of(fault: Fault, number: u64) -> ParamVerdict
    ensures { pure_param_verdict result ≡ cut_param (told number fault) }
{
    let number = cut_number(number);
    match fault {
        Fault::NoMeaning => ParamVerdict::NoMeaning(number),
        Fault::BelowZero => ParamVerdict::BelowZero(number),
        Fault::NotMember => ParamVerdict::NotMember(number),
        Fault::Needs => ParamVerdict::Needs(number),
    }
}

/// The number of a statement, or 2^32 - 1 where it is more.
pub(crate) fn cut_number(number: u64) -> u32
    ensures { result ≡ min number largest }
{
    number.min(4294967295) as u32
}
