ghost use Rattle.std.specs.Prelude.{◌≡◌, ℕ, true, option_map, IfOk, IfErr};
ghost use Rattle.std.specs.Option.{option_copied};
ghost use Rattle.ess_semantics.specs.Meaning.{meaning, is_true, domain_of as domain_meant};
ghost use Rattle.ess_semantics.specs.Large.{is_large, is_large_dom};
ghost use Rattle.ess_semantics.specs.LargeSpecifications.{declares_large_number};
ghost use Rattle.ess_semantics.specs.Parameters.{statement_verdict};
ghost use Rattle.ess_core.specs.ValueViews.{pure_val};
ghost use Rattle.ess_core.specs.TreeViews.{pure_ex, pure_dom};
ghost use Rattle.ess_core.specs.TableViews.{pure_env};
ghost use Rattle.ess_core.specs.StatementViews.{pure_stm};
ghost use Rattle.ess_eval.specs.Stops.{is_big_or_memory};
ghost use Rattle.ess_eval.specs.declared.calls.EvalNo.TheVariants.{Big};
ghost use Rattle.ess_domains.specs.Assignments.{pure_assignment};
ghost use Rattle.ess_domains.specs.Faults.{told, domain_verdict, given_verdict, type_verdict, size_verdict, need_verdict};

use crate::assignments::{Assignment, TypeNames};
use crate::environments::number_in;
use crate::rooms::with_room;
use ess_core::{Dom, Env, Ex, Stm, Val};
use ess_domains_members::is_member;
use ess_eval::{EvalNo, domain_of, truth, value};
use ess_eval_domains::no_negative_attribute;
use std::alloc::Global;

/// What a statement of a specification is not given by a parameter.
#[derive(Clone, Copy, Debug, PartialEq, Eq)]
pub enum Fault {
    /// A bound, an attribute value or a type size without a meaning.
    NoMeaning,
    /// An attribute value or a type size below 0.
    BelowZero,
    /// A value that is no member of its domain.
    NotMember,
    /// A `where` that isn't true.
    Needs,
}

/// What a parameter fails first at a statement, where env is that before the statement.
#[tactic(auto, using(crate::proofs::StatementFaults::statements, crate::proofs::Told::given_ok))]
pub(crate) fn fault_at(
    alloc: Global,
    stm: &Stm,
    param: &Assignment,
    env: &Env,
) -> Result<Option<Fault>, EvalNo>
    ensures ok { IfOk result (λ o. (k : ℕ) → option_map (told k) o
        ≡ statement_verdict (pure_assignment param.now) (record { stm = pure_stm stm.now; number = k; env = pure_env env.now })) }
    ensures big { result ≡ Err Big → declares_large_number (pure_stm stm.now) (pure_env env.now) ≡ true }
    ensures stops { IfErr result (λ no. is_big_or_memory no ≡ true) }
{
    match stm {
        Stm::Given(name, dom) => given_fault(alloc, dom.get(), param.value_of(name), env),
        Stm::GivenEnum(name) => Ok(type_fault(param.type_of(name))),
        Stm::LetEx(_, _) => Ok(None),
        Stm::LetDom(_, _) => Ok(None),
        Stm::LetEnum(_, _) => Ok(None),
        Stm::LetUnnamed(_, size) => Ok(size_fault(number_in(value(alloc, size.get(), env)?))),
        Stm::Needs(test) => need_fault(alloc, test.get(), env),
        Stm::Find(_, dom) => domain_fault(alloc, dom.get(), env),
        Stm::SuchThat(_) => Ok(None),
        Stm::Minimise(_) => Ok(None),
        Stm::Maximise(_) => Ok(None),
    }
}

/// What the domain of a declaration fails.
fn domain_fault(alloc: Global, dom: &Dom, env: &Env) -> Result<Option<Fault>, EvalNo>
    ensures ok { IfOk result (λ o. (k : ℕ) → option_map (told k) o
        ≡ domain_verdict k (domain_meant (pure_dom dom.now) (pure_env env.now))) }
    ensures big { result ≡ Err Big → is_large_dom (pure_dom dom.now) (pure_env env.now) ≡ true }
    ensures stops { IfErr result (λ no. is_big_or_memory no ≡ true) }
{
    match domain_of(alloc, dom, env)? {
        None => Ok(Some(Fault::NoMeaning)),
        Some(domain) => {
            if no_negative_attribute(domain.get()) {
                Ok(None)
            } else {
                Ok(Some(Fault::BelowZero))
            }
        }
    }
}

/// What the domain of a given and its value fail.
fn given_fault(
    alloc: Global,
    dom: &Dom,
    val: Option<&Val>,
    env: &Env,
) -> Result<Option<Fault>, EvalNo>
    ensures ok { IfOk result (λ o. (k : ℕ) → option_map (told k) o
        ≡ given_verdict k (domain_meant (pure_dom dom.now) (pure_env env.now)) (option_map pure_val (option_copied val.entry))) }
    ensures big { result ≡ Err Big → is_large_dom (pure_dom dom.now) (pure_env env.now) ≡ true }
    ensures stops { IfErr result (λ no. is_big_or_memory no ≡ true) }
{
    match domain_of(alloc, dom, env)? {
        None => Ok(Some(Fault::NoMeaning)),
        Some(domain) => {
            if !no_negative_attribute(domain.get()) {
                return Ok(Some(Fault::BelowZero));
            }
            match val {
                None => Ok(Some(Fault::NotMember)),
                Some(val) => {
                    if with_room(is_member(alloc, domain.get(), val))? {
                        Ok(None)
                    } else {
                        Ok(Some(Fault::NotMember))
                    }
                }
            }
        }
    }
}

/// What the names of a given type's values fail.
fn type_fault(given: Option<&TypeNames>) -> Option<Fault>
    ensures { (k : ℕ) → option_map (told k) result ≡ type_verdict k (option_map (λ t. t.names) (option_copied given.entry)) }
{
    match given {
        None => Some(Fault::NotMember),
        Some(given) => {
            if given.names.is_empty() {
                Some(Fault::NotMember)
            } else {
                None
            }
        }
    }
}

/// What the size of an unnamed type fails.
fn size_fault(size: Option<i64>) -> Option<Fault>
    ensures { (k : ℕ) → option_map (told k) result ≡ size_verdict k size }
{
    match size {
        None => Some(Fault::NoMeaning),
        Some(size) => {
            if size >= 0 {
                None
            } else {
                Some(Fault::BelowZero)
            }
        }
    }
}

/// What a `where` fails.
fn need_fault(alloc: Global, test: &Ex, env: &Env) -> Result<Option<Fault>, EvalNo>
    ensures ok { IfOk result (λ o. (k : ℕ) → option_map (told k) o
        ≡ need_verdict k (is_true (meaning (pure_ex test.now) (pure_env env.now)))) }
    ensures big { result ≡ Err Big → is_large (pure_ex test.now) (pure_env env.now) ≡ true }
    ensures stops { IfErr result (λ no. is_big_or_memory no ≡ true) }
{
    if truth(alloc, test, env)? {
        Ok(None)
    } else {
        Ok(Some(Fault::Needs))
    }
}
