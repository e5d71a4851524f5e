//! What all plans of a find answer, and the value on which they agree.
ghost use Rattle.std.specs.Prelude.{◌≡◌, [], ◌∷◌, map, filter, option_map, IfOk};
ghost use Rattle.std.specs.List.{list_all};
ghost use Rattle.ess_semantics.specs.Meaning.{Env};
ghost use Rattle.ess_semantics.specs.Plans.{is_plan_of as is_pure_plan_of, same_value, common_value, value_by_plan};
ghost use Rattle.ess_core.specs.TableViews.{pure_named_table};
ghost use Rattle.ess_core.specs.ValueViews.{pure_val};
ghost use Rattle.ess_eval_domains.specs.ClosedViews.{pure_closed};
ghost use Rattle.ess_translate_plans.specs.Views.{pure_plan};
ghost use Rattle.ess_translate_members_laws.specs.PlanDomains.{plan_closed};
ghost use Rattle.ess_translate_values_laws.specs.ReadyPlans.{IsReady};
ghost use Rattle.ess_translate_values_laws.specs.CommonValues.{agreed as agreed_on};
ghost use Rattle.ess_translate_values.specs.StoodValues.{AreAtPlans};

use crate::reading::by_plan;
use ess_core::{Boxed, NamedTable, NoMemory, Row, Text, Val};
use ess_domains_members::same;
use ess_eval_domains::Closed;
use ess_translate_plans::{Plan, Side};
use std::alloc::Global;
use std::cmp::Ordering;

/// The value for which the tables of a find stand by all of its plans; nothing where they stand for none, or for several. `NoMemory`
/// where there is no room for it.
#[tactic(auto, using(crate::proofs::FindAnswers::common_found))]
pub(crate) fn common(
    alloc: Global,
    plans: &[Plan],
    closed: &[Option<Boxed<Closed>>],
    name: &Text,
    cells: &[NamedTable],
) -> Result<Option<Boxed<Val>>, NoMemory>
    ensures { IfOk result (λ o. (env : Env) → AreAtPlans env plans.now closed.now (map pure_named_table cells.now) →
        option_map pure_val o ≡ common_value env (map pure_named_table cells.now)
        (filter (is_pure_plan_of name.now) (map pure_plan plans.now))) }
{
    let answers = answers_of(alloc, plans, closed, name, cells)?;
    Ok(agreed(alloc, answers.as_slice())?)
}

/// What each plan of a find answers.
#[tactic(auto, using(crate::proofs::FindAnswers::answers_none, crate::proofs::FindAnswers::answers_more, crate::proofs::FindAnswers::answers_skip, crate::proofs::FindAnswers::answers_all))]
fn answers_of(
    alloc: Global,
    plans: &[Plan],
    closed: &[Option<Boxed<Closed>>],
    name: &Text,
    cells: &[NamedTable],
) -> Result<Row<Option<Boxed<Val>>>, NoMemory>
    ensures { IfOk result (λ r. (env : Env) → AreAtPlans env plans.now closed.now (map pure_named_table cells.now) →
        map (option_map pure_val) r ≡ map (value_by_plan env (map pure_named_table cells.now))
        (filter (is_pure_plan_of name.now) (map pure_plan plans.now))) }
{
    let mut answers = Row::new(alloc);
    for (index, plan) in plans.iter().enumerate() {
        if index >= closed.len() {
            return Err(NoMemory);
        }
        if is_plan_of(plan, name) {
            answers.push(answer(alloc, plan, &closed[index], cells)?)?;
        }
    }
    Ok(answers)
}

/// Whether a plan is one of the find with this name.
fn is_plan_of(plan: &Plan, name: &Text) -> bool
    ensures { result ≡ is_pure_plan_of name.now (pure_plan plan.now) }
{
    match plan {
        Plan::Size(_, _) => false,
        Plan::Value(value) => match value.get().side {
            Side::Givens => false,
            Side::Finds => value.get().name.cmp(name) == Ordering::Equal,
        },
    }
}

/// The value for which the tables of a plan with this domain stand.
fn answer(
    alloc: Global,
    plan: &Plan,
    domain: &Option<Boxed<Closed>>,
    cells: &[NamedTable],
) -> Result<Option<Boxed<Val>>, NoMemory>
    ensures { IfOk result (λ o. (env : Env) → option_map pure_closed domain.now ≡ plan_closed env (pure_plan plan.now) →
        IsReady env (map pure_named_table cells.now) (pure_plan plan.now) →
        option_map pure_val o ≡ value_by_plan env (map pure_named_table cells.now) (pure_plan plan.now)) }
{
    match plan {
        Plan::Size(_, _) => Ok(None),
        Plan::Value(value) => Ok(by_plan(alloc, value.get(), domain, cells)?),
    }
}

/// The value of the first answer, where each of the others has the same. `NoMemory` where there is no room for it.
#[tactic(auto, using(crate::proofs::AgreedAnswers::agreed_none, crate::proofs::AgreedAnswers::agreed_all, crate::proofs::AgreedAnswers::agreed_not, crate::proofs::AgreedAnswers::agreed_lacks))]
fn agreed(alloc: Global, answers: &[Option<Boxed<Val>>]) -> Result<Option<Boxed<Val>>, NoMemory>
    ensures { IfOk result (λ o. option_map pure_val o ≡ agreed_on (map (option_map pure_val) answers.now)) }
{
    if answers.len() == 0 {
        return Ok(None);
    }
    match &answers[0] {
        Some(val) => {
            if each_is(val.get(), &answers[1..]) {
                Ok(Some(Boxed::new(alloc, val.get().copy(alloc)?)?))
            } else {
                Ok(None)
            }
        }
        None => Ok(None),
    }
}

/// Whether each of these answers is this value.
#[tactic(auto, using(crate::proofs::AgreedAnswers::each_none, crate::proofs::AgreedAnswers::each_more, crate::proofs::AgreedAnswers::each_stop, crate::proofs::AgreedAnswers::each_all))]
fn each_is(val: &Val, answers: &[Option<Boxed<Val>>]) -> bool
    ensures { result ≡ list_all (same_value (pure_val val.now)) (map (option_map pure_val) answers.now) }
{
    for answer in answers {
        if !is_same(val, answer) {
            return false;
        }
    }
    true
}

/// Whether an answer is this value.
fn is_same(val: &Val, answer: &Option<Boxed<Val>>) -> bool
    ensures { result ≡ same_value (pure_val val.now) (option_map pure_val answer.now) }
{
    match answer {
        Some(found) => same(val, found.get()),
        None => false,
    }
}
