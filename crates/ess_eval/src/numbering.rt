ghost use Rattle.std.specs.Prelude.{◌≡◌, IfOk, OnOk, true, map, option_map};
ghost use Rattle.ess_semantics.specs.Meaning.{meanings, attributes_of as attributes_meant, spans_of as spans_meant};
ghost use Rattle.ess_semantics.specs.Large.{any_large};
ghost use Rattle.ess_core.specs.TreeViews.{pure_range, pure_attr, exs_of, words_of, within};
ghost use Rattle.ess_eval_domains.specs.ClosedViews.{pure_attribute, pure_attributes, pure_span};
ghost use Rattle.ess_eval_operators.specs.declared.OperateNo.TheVariants.{Big};
ghost use Rattle.ess_eval.specs.Environments.{env_at};
ghost use Rattle.ess_eval.specs.Items.{Gathered};

use crate::evaluating::number_at;
use crate::risen::Risen;
use ess_core::{Attr, Binding, Range, Row};
use ess_eval_domains::{Attribute, Span};
use ess_eval_operators::OperateNo;
use std::alloc::Global;

/// The ranges of an int domain, where each bound has a meaning.
#[cycle(value)]
#[tactic(auto, using(crate::proofs::Gathering::gathered_all))]
pub(crate) fn spans_at(
    alloc: Global,
    ranges: &[Range],
    env: &Risen,
    bound: &mut Row<Binding>,
) -> Result<Option<Row<Span>>, OperateNo>
    ensures ok { IfOk result (λ o. option_map (map pure_span) o ≡ spans_meant (words_of (map pure_range ranges.now)) (meanings (exs_of (within (map pure_range ranges.now))) (env_at env.now bound.old))) }
    ensures kept { OnOk result (bound.new ≡ bound.old) }
    ensures big { result ≡ Err Big → any_large (exs_of (within (map pure_range ranges.now))) (env_at env.now bound.old) ≡ true }
{
    let mut spans = Row::new(alloc);
    if add_spans(alloc, ranges, env, bound, &mut spans)? {
        Ok(Some(spans))
    } else {
        Ok(None)
    }
}

/// Puts the ranges behind others. False where a bound has no meaning.
#[cycle(value)]
#[tactic(auto, using(crate::proofs::Gathering::gathered_on, crate::proofs::Excuses::large_first, crate::proofs::Excuses::large_later))]
fn add_spans(
    alloc: Global,
    ranges: &[Range],
    env: &Risen,
    bound: &mut Row<Binding>,
    spans: &mut Row<Span>,
) -> Result<bool, OperateNo>
    ensures ok { IfOk result (λ b. Gathered b (map pure_span spans.old) (map pure_span spans.new) (spans_meant (words_of (map pure_range ranges.now)) (meanings (exs_of (within (map pure_range ranges.now))) (env_at env.now bound.old)))) }
    ensures kept { OnOk result (bound.new ≡ bound.old) }
    ensures big { result ≡ Err Big → any_large (exs_of (within (map pure_range ranges.now))) (env_at env.now bound.old) ≡ true }
{
    match ranges.split_first() {
        None => Ok(true),
        Some((Range::One(ex), rest)) => match number_at(alloc, ex, env, bound)? {
            Some(number) => {
                spans.push(Span {
                    low: Some(number),
                    high: Some(number),
                })?;
                add_spans(alloc, rest, env, bound, spans)
            }
            None => Ok(false),
        },
        Some((Range::Span(Some(low), Some(high)), rest)) => {
            let low = number_at(alloc, low, env, bound)?;
            let high = number_at(alloc, high, env, bound)?;
            match (low, high) {
                (Some(low), Some(high)) => {
                    spans.push(Span {
                        low: Some(low),
                        high: Some(high),
                    })?;
                    add_spans(alloc, rest, env, bound, spans)
                }
                (_, _) => Ok(false),
            }
        }
        Some((Range::Span(Some(low), None), rest)) => match number_at(alloc, low, env, bound)? {
            Some(low) => {
                spans.push(Span {
                    low: Some(low),
                    high: None,
                })?;
                add_spans(alloc, rest, env, bound, spans)
            }
            None => Ok(false),
        },
        Some((Range::Span(None, Some(high)), rest)) => match number_at(alloc, high, env, bound)? {
            Some(high) => {
                spans.push(Span {
                    low: None,
                    high: Some(high),
                })?;
                add_spans(alloc, rest, env, bound, spans)
            }
            None => Ok(false),
        },
        Some((Range::Span(None, None), _)) => Ok(false),
    }
}

/// The attributes of a domain, where each number has a meaning.
#[cycle(value)]
#[tactic(auto, using(crate::proofs::Gathering::gathered_all))]
pub(crate) fn attributes_at(
    alloc: Global,
    attrs: &[Attr],
    env: &Risen,
    bound: &mut Row<Binding>,
) -> Result<Option<Row<Attribute>>, OperateNo>
    ensures ok { IfOk result (λ o. option_map pure_attributes o ≡ attributes_meant (words_of (map pure_attr attrs.now)) (meanings (exs_of (within (map pure_attr attrs.now))) (env_at env.now bound.old))) }
    ensures kept { OnOk result (bound.new ≡ bound.old) }
    ensures big { result ≡ Err Big → any_large (exs_of (within (map pure_attr attrs.now))) (env_at env.now bound.old) ≡ true }
{
    let mut own = Row::new(alloc);
    if add_attributes(alloc, attrs, env, bound, &mut own)? {
        Ok(Some(own))
    } else {
        Ok(None)
    }
}

/// Puts the attributes behind others. False where a number has no meaning.
#[cycle(value)]
#[tactic(auto, using(crate::proofs::Gathering::gathered_on, crate::proofs::Excuses::large_first, crate::proofs::Excuses::large_later))]
fn add_attributes(
    alloc: Global,
    attrs: &[Attr],
    env: &Risen,
    bound: &mut Row<Binding>,
    own: &mut Row<Attribute>,
) -> Result<bool, OperateNo>
    ensures ok { IfOk result (λ b. Gathered b (map pure_attribute own.old) (map pure_attribute own.new) (attributes_meant (words_of (map pure_attr attrs.now)) (meanings (exs_of (within (map pure_attr attrs.now))) (env_at env.now bound.old)))) }
    ensures kept { OnOk result (bound.new ≡ bound.old) }
    ensures big { result ≡ Err Big → any_large (exs_of (within (map pure_attr attrs.now))) (env_at env.now bound.old) ≡ true }
{
    match attrs.split_first() {
        None => Ok(true),
        Some((attr, rest)) => match &attr.value {
            None => {
                own.push(Attribute::Flagged(attr.key))?;
                add_attributes(alloc, rest, env, bound, own)
            }
            Some(ex) => match number_at(alloc, ex, env, bound)? {
                Some(number) => {
                    own.push(Attribute::Numbered(attr.key, number))?;
                    add_attributes(alloc, rest, env, bound, own)
                }
                None => Ok(false),
            },
        },
    }
}
