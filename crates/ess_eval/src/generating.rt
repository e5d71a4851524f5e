ghost use Rattle.std.specs.Prelude.{◌≡◌, ◌∷◌, [], IfOk, OnOk, false, true, map, option_map};
ghost use Rattle.ess_semantics.specs.Values.{number};
ghost use Rattle.ess_semantics.specs.Trees.{comp_ex, no_exs, more_exs, node_ex, word, int_dom, name_pat};
ghost use Rattle.ess_semantics.specs.Meaning.{meaning, members_in, with_pat, domain_of as domain_meant};
ghost use Rattle.ess_semantics.specs.Large.{is_large, any_large};
ghost use Rattle.ess_core.specs.ValueViews.{pure_val};
ghost use Rattle.ess_core.specs.TreeViews.{pure_ex, pure_dom, pure_pat, pure_gen, pure_gens, pure_range, exs_of, words_of, within, call_mark, from_item, over_item};
ghost use Rattle.ess_eval_operators.specs.declared.OperateNo.TheVariants.{Big};
ghost use Rattle.ess_eval.specs.Environments.{env_at};
ghost use Rattle.ess_eval.specs.Items.{items_at, swept, source_items, large_items, large_swept};
ghost use Rattle.ess_eval.specs.Folds.{Taken, pure_fold};

use crate::closing::domain_members;
use crate::evaluating::value_at;
use crate::folding::{Fold, begun, list_kept, take, word_kept};
use crate::numbering::spans_at;
use crate::reading::{items_in, truth_of};
use crate::risen::Risen;
use crate::sweeping::{sweep, sweep_numbers};
use ess_core::{Binding, Dom, Ex, Fun, Gen, Pat, Range, Row, Text, Val};
use ess_eval_domains::number_members;
use ess_eval_operators::OperateNo;
use std::alloc::Global;

/// A comprehension.
#[cycle(value)]
#[tactic(auto, using(crate::proofs::Takings::comprehension_means))]
pub(crate) fn comprehension(
    alloc: Global,
    item: &Ex,
    gens: &[Gen],
    env: &Risen,
    bound: &mut Row<Binding>,
) -> Result<Option<Val>, OperateNo>
    ensures ok { IfOk result (λ o. option_map pure_val o ≡ meaning (comp_ex (pure_ex item.now) (pure_gens gens.now)) (env_at env.now bound.old)) }
    ensures kept { OnOk result (bound.new ≡ bound.old) }
    ensures big { result ≡ Err Big → is_large (comp_ex (pure_ex item.now) (pure_gens gens.now)) (env_at env.now bound.old) ≡ true }
{
    let mut fold = Fold::Items(Row::new(alloc));
    let there = runs(alloc, item, gens, env, bound, &mut fold)?;
    Ok(list_kept(alloc, there, fold)?)
}

/// A function word on a comprehension. The words that can be computed of the items as they come need no list of them.
#[cycle(value)]
#[tactic(auto, using(crate::proofs::Excuses::large_word_items, crate::proofs::Takings::word_means, crate::proofs::Takings::word_large))]
pub(crate) fn word_over(
    alloc: Global,
    fun: Fun,
    item: &Ex,
    gens: &[Gen],
    env: &Risen,
    bound: &mut Row<Binding>,
) -> Result<Option<Val>, OperateNo>
    ensures ok { IfOk result (λ o. option_map pure_val o ≡ meaning (node_ex (call_mark false fun) (word fun) (more_exs (comp_ex (pure_ex item.now) (pure_gens gens.now)) no_exs)) (env_at env.now bound.old)) }
    ensures kept { OnOk result (bound.new ≡ bound.old) }
    ensures big { result ≡ Err Big → is_large (node_ex (call_mark false fun) (word fun) (more_exs (comp_ex (pure_ex item.now) (pure_gens gens.now)) no_exs)) (env_at env.now bound.old) ≡ true }
{
    let mut fold = begun(alloc, fun);
    let there = runs(alloc, item, gens, env, bound, &mut fold)?;
    word_kept(alloc, fun, there, fold)
}

/// Takes the items at all bindings of the generators. False where they are decided before the last one.
#[cycle(value)]
#[tactic(auto, using(crate::proofs::Generators::at_condition, crate::proofs::Takings::nothing_more, crate::proofs::Takings::item_taken))]
pub(crate) fn runs(
    alloc: Global,
    item: &Ex,
    gens: &[Gen],
    env: &Risen,
    bound: &mut Row<Binding>,
    fold: &mut Fold,
) -> Result<bool, OperateNo>
    ensures ok { IfOk result (λ t. Taken t (pure_fold fold.old) (pure_fold fold.new) (items_at (pure_ex item.now) (map pure_gen gens.now) (env_at env.now bound.old))) }
    ensures kept { OnOk result (bound.new ≡ bound.old) }
    ensures big { result ≡ Err Big → large_items (pure_ex item.now) (map pure_gen gens.now) (env_at env.now bound.old) ≡ true }
{
    match gens.split_first() {
        None => match value_at(alloc, item, env, bound)? {
            Some(val) => Ok(take(fold, val)?),
            None => Ok(false),
        },
        Some((Gen::If(test), rest)) => {
            if truth_of(value_at(alloc, test, env, bound)?) {
                runs(alloc, item, rest, env, bound, fold)
            } else {
                Ok(true)
            }
        }
        Some((Gen::From(pat, source), rest)) => runs_from(
            alloc, item, pat, source, rest, env, bound, fold,
        ),
        Some((Gen::Over(pat, dom), rest)) => runs_over(
            alloc, item, pat, dom, rest, env, bound, fold,
        ),
    }
}

/// The same for a pattern that a generator binds over a value.
#[cycle(value)]
#[tactic(auto, using(crate::proofs::Generators::at_value))]
fn runs_from(
    alloc: Global,
    item: &Ex,
    pat: &Pat,
    source: &Ex,
    rest: &[Gen],
    env: &Risen,
    bound: &mut Row<Binding>,
    fold: &mut Fold,
) -> Result<bool, OperateNo>
    ensures ok { IfOk result (λ t. Taken t (pure_fold fold.old) (pure_fold fold.new) (items_at (pure_ex item.now) (from_item (pure_pat pat.now) (pure_ex source.now) ∷ map pure_gen rest.now) (env_at env.now bound.old))) }
    ensures kept { OnOk result (bound.new ≡ bound.old) }
    ensures big { result ≡ Err Big → large_items (pure_ex item.now) (from_item (pure_pat pat.now) (pure_ex source.now) ∷ map pure_gen rest.now) (env_at env.now bound.old) ≡ true }
{
    match source_values(alloc, source, env, bound)? {
        Some(vals) => sweep(alloc, item, pat, vals, rest, env, bound, fold),
        None => Ok(false),
    }
}

/// The same for a pattern that a generator binds over a domain.
#[cycle(value)]
#[tactic(auto, using(crate::proofs::Generators::at_domain, crate::proofs::Generators::large_named_ints))]
fn runs_over(
    alloc: Global,
    item: &Ex,
    pat: &Pat,
    dom: &Dom,
    rest: &[Gen],
    env: &Risen,
    bound: &mut Row<Binding>,
    fold: &mut Fold,
) -> Result<bool, OperateNo>
    ensures ok { IfOk result (λ t. Taken t (pure_fold fold.old) (pure_fold fold.new) (items_at (pure_ex item.now) (over_item (pure_pat pat.now) (pure_dom dom.now) ∷ map pure_gen rest.now) (env_at env.now bound.old))) }
    ensures kept { OnOk result (bound.new ≡ bound.old) }
    ensures big { result ≡ Err Big → large_items (pure_ex item.now) (over_item (pure_pat pat.now) (pure_dom dom.now) ∷ map pure_gen rest.now) (env_at env.now bound.old) ≡ true }
{
    if let Pat::Name(name) = pat {
        if let Dom::Int(ranges) = dom {
            return runs_numbers(alloc, item, name, ranges.as_slice(), rest, env, bound, fold);
        }
    }
    match domain_members(alloc, dom, env, bound)? {
        Some(vals) => sweep(alloc, item, pat, vals, rest, env, bound, fold),
        None => Ok(false),
    }
}

/// The same for a name that a generator binds over whole numbers.
#[cycle(value)]
#[tactic(auto, using(crate::proofs::Generators::at_domain, crate::proofs::Generators::numbers_there, crate::proofs::Generators::numbers_large_there))]
fn runs_numbers(
    alloc: Global,
    item: &Ex,
    name: &Text,
    ranges: &[Range],
    rest: &[Gen],
    env: &Risen,
    bound: &mut Row<Binding>,
    fold: &mut Fold,
) -> Result<bool, OperateNo>
    ensures ok { IfOk result (λ t. Taken t (pure_fold fold.old) (pure_fold fold.new) (items_at (pure_ex item.now) (over_item (name_pat name.now) (int_dom (words_of (map pure_range ranges.now)) (exs_of (within (map pure_range ranges.now)))) ∷ map pure_gen rest.now) (env_at env.now bound.old))) }
    ensures kept { OnOk result (bound.new ≡ bound.old) }
    ensures big { result ≡ Err Big → large_items (pure_ex item.now) (over_item (name_pat name.now) (int_dom (words_of (map pure_range ranges.now)) (exs_of (within (map pure_range ranges.now)))) ∷ map pure_gen rest.now) (env_at env.now bound.old) ≡ true }
{
    match numbers_at(alloc, ranges, env, bound)? {
        Some(numbers) => sweep_numbers(
            alloc,
            item,
            name,
            numbers.as_slice(),
            rest,
            env,
            bound,
            fold,
        ),
        None => Ok(false),
    }
}

/// The whole numbers of an int domain, where each bound has a meaning and they can be listed.
#[cycle(value)]
fn numbers_at(
    alloc: Global,
    ranges: &[Range],
    env: &Risen,
    bound: &mut Row<Binding>,
) -> Result<Option<Row<i64>>, OperateNo>
    ensures ok { IfOk result (λ o. option_map (map number) o ≡ members_in (domain_meant (int_dom (words_of (map pure_range ranges.now)) (exs_of (within (map pure_range ranges.now)))) (env_at env.now bound.old))) }
    ensures kept { OnOk result (bound.new ≡ bound.old) }
    ensures big { result ≡ Err Big → any_large (exs_of (within (map pure_range ranges.now))) (env_at env.now bound.old) ≡ true }
{
    match spans_at(alloc, ranges, env, bound)? {
        Some(spans) => Ok(number_members(alloc, spans.as_slice())?),
        None => Ok(None),
    }
}

/// What a generator over a value runs over, where the value is there.
#[cycle(value)]
fn source_values(
    alloc: Global,
    source: &Ex,
    env: &Risen,
    bound: &mut Row<Binding>,
) -> Result<Option<Row<Val>>, OperateNo>
    ensures ok { IfOk result (λ o. option_map (map pure_val) o ≡ source_items (meaning (pure_ex source.now) (env_at env.now bound.old))) }
    ensures kept { OnOk result (bound.new ≡ bound.old) }
    ensures big { result ≡ Err Big → is_large (pure_ex source.now) (env_at env.now bound.old) ≡ true }
{
    match value_at(alloc, source, env, bound)? {
        Some(val) => Ok(Some(items_in(alloc, val)?)),
        None => Ok(None),
    }
}
