ghost use Rattle.std.specs.Prelude.{◌≡◌, List, [], None, false, true, not, map, IfOk, IfErr};
ghost use Rattle.ess_semantics.specs.Lists.{or_else, when};
ghost use Rattle.ess_semantics.specs.Trees.{Stm as PureStm};
ghost use Rattle.ess_semantics.specs.Prepared.{prepared};
ghost use Rattle.ess_semantics.specs.Assignments.{nothing_given};
ghost use Rattle.ess_semantics.specs.Solutions.{verdict as verdict_on, not_in_domain, name_of_find};
ghost use Rattle.ess_semantics.specs.LargeSpecifications.{solution_is_large};
ghost use Rattle.ess_core.specs.StatementViews.{pure_stm};
ghost use Rattle.ess_eval.specs.Stops.{is_big_or_memory};
ghost use Rattle.ess_eval.specs.declared.calls.EvalNo.TheVariants.{Big};
ghost use Rattle.ess_domains.specs.Assignments.{pure_assignment};
ghost use Rattle.ess_domains.specs.Verdicts.{pure_verdict, cut};
ghost use Rattle.ess_domains.specs.Prepared.{extra_found, verdict_over, values_verdict, has_large, has_large_declared};
ghost use Rattle.ess_domains.specs.Walked.{pure_stms, walked};

use crate::assignments::Assignment;
use crate::environments::{go_on, no_env};
use crate::extra_values::{extra_find, extra_list};
use crate::judging::judge;
use crate::missing::missing_find;
use crate::parameters::cut_number;
use crate::rooms::with_room;
use crate::sizes::sizes_of;
use crate::verdicts::Verdict;
use ess_core::{NoMemory, Stm, Text};
use ess_eval::EvalNo;
use std::alloc::Global;

/// The verdict on a solution of a specification under a parameter that fits, where the statements have lettings put in and
/// are resolved: a missing find, a name too many, a find outside its domain, a false constraint, an objective without a
/// value, in this order of kinds; of each kind the first. `Big` where a number on the way lies outside 64 bits; `NoMemory`
/// where there is no room for what the statements declare.
#[tactic(auto, using(crate::proofs::Told::verdict_ok, crate::proofs::PreparedNames::solution_large))]
pub fn solves(
    alloc: Global,
    stms: &[Stm],
    param: &Assignment,
    sol: &Assignment,
) -> Result<Verdict, EvalNo>
    ensures ok { IfOk result (λ v. (S : List PureStm) → map pure_stm stms.now ≡ prepared S → pure_verdict v
        ≡ cut (verdict_on S (pure_assignment param.now) (pure_assignment sol.now))) }
    ensures big { result ≡ Err Big → (S : List PureStm) → map pure_stm stms.now ≡ prepared S
        → solution_is_large S (pure_assignment param.now) (pure_assignment sol.now) ≡ true }
    ensures stops { IfErr result (λ no. is_big_or_memory no ≡ true) }
{
    judged(alloc, stms, param, sol)
}

/// The verdict on a solution, as the statements stand.
#[tactic(auto, using(crate::proofs::Walks::declared_large))]
fn judged(
    alloc: Global,
    stms: &[Stm],
    param: &Assignment,
    sol: &Assignment,
) -> Result<Verdict, EvalNo>
    ensures ok { IfOk result (λ v. pure_verdict v
        ≡ cut (verdict_over (pure_stms stms.now) (pure_assignment param.now) (pure_assignment sol.now))) }
    ensures big { result ≡ Err Big → has_large (walked stms.now param.now sol.now) ≡ true }
    ensures stops { IfErr result (λ no. is_big_or_memory no ≡ true) }
{
    if let Some(name) = missing_find(stms, sol) {
        return Ok(Verdict::Missing(with_room(name.copy(alloc))?));
    }
    match extra_name(alloc, stms, param, sol)? {
        Some(name) => Ok(Verdict::Extra(name)),
        None => judged_values(alloc, stms, param, sol),
    }
}

/// The first name of a solution that is too many: types come before values.
fn extra_name(
    alloc: Global,
    stms: &[Stm],
    param: &Assignment,
    sol: &Assignment,
) -> Result<Option<Text>, EvalNo>
    ensures ok { IfOk result (λ o. o ≡ extra_found (pure_stms stms.now) (pure_assignment param.now) (pure_assignment sol.now)) }
    ensures big { result ≡ Err Big → has_large_declared (walked stms.now param.now sol.now) ≡ true }
    ensures stops { IfErr result (λ no. is_big_or_memory no ≡ true) }
{
    if !sol.types.is_empty() {
        let sizes = sizes_of(alloc, stms, param, sol)?;
        match with_room(extra_list(alloc, stms, sizes.as_slice(), sol.types.as_slice()))? {
            Some(name) => return Ok(Some(name)),
            None => {}
        }
    }
    match extra_find(stms, sol.types.as_slice(), sol.vals.as_slice()) {
        Some(name) => Ok(Some(with_room(name.copy(alloc))?)),
        None => Ok(None),
    }
}

/// The verdict on the values of a solution that gives each find one and nothing else. All statements are gone through once;
/// the first false constraint is kept until no find is outside its domain.
#[tactic(auto, using(crate::proofs::Walks::solution_walk))]
fn judged_values(
    alloc: Global,
    stms: &[Stm],
    param: &Assignment,
    sol: &Assignment,
) -> Result<Verdict, EvalNo>
    ensures ok { IfOk result (λ v. pure_verdict v
        ≡ cut (values_verdict None false (pure_assignment sol.now) (walked stms.now param.now sol.now))) }
    ensures big { result ≡ Err Big → has_large (walked stms.now param.now sol.now) ≡ true }
    ensures stops { IfErr result (λ no. is_big_or_memory no ≡ true) }
{
    let mut env = no_env(alloc);
    let mut false_at = None;
    let mut without_value = false;
    for (i, stm) in stms.iter().enumerate() {
        let judged = judge(alloc, stm, sol, &env)?;
        if !judged.member {
            return with_room(outside(alloc, stm));
        }
        false_at = first_false(false_at, judged.holds, i as u64 + 1);
        without_value = without_value || !judged.has_value;
        go_on(alloc, stm, param, sol, &mut env)?;
    }
    Ok(verdict_of(false_at, without_value))
}

/// The verdict where no find is outside its domain.
fn verdict_of(false_at: Option<u64>, without_value: bool) -> Verdict
    ensures { pure_verdict result ≡ cut (values_verdict false_at without_value nothing_given []) }
{
    match false_at {
        Some(number) => Verdict::False(cut_number(number)),
        None => {
            if without_value {
                Verdict::NoObjective
            } else {
                Verdict::Valid
            }
        }
    }
}

/// The number that is there, else this one where a constraint doesn't hold.
fn first_false(found: Option<u64>, holds: bool, number: u64) -> Option<u64>
    ensures { result ≡ or_else found (when (not holds) number) }
{
    match found {
        Some(first) => Some(first),
        None => { if holds { None } else { Some(number) } }
    }
}

/// The verdict where the find of a statement is outside its domain.
fn outside(alloc: Global, stm: &Stm) -> Result<Verdict, NoMemory>
    ensures { IfOk result (λ v. pure_verdict v ≡ not_in_domain (name_of_find (pure_stm stm.now))) }
{
    match stm {
        Stm::Find(name, _) => Ok(Verdict::NotMember(name.copy(alloc)?)),
        _ => Ok(Verdict::NotMember(Text::new(alloc))),
    }
}
