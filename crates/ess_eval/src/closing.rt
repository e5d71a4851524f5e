ghost use Rattle.std.specs.Prelude.{◌≡◌, ◌||◌, IfOk, OnOk, true, map, option_map};
ghost use Rattle.ess_semantics.specs.Kinds.{doms_of};
ghost use Rattle.ess_semantics.specs.Meaning.{meanings, members_in, domain_of as domain_meant, domains_of as domains_meant, attributes_of as attributes_meant, spans_of as spans_meant};
ghost use Rattle.ess_semantics.specs.Large.{any_large, is_large_dom, any_large_dom};
ghost use Rattle.ess_core.specs.ValueViews.{pure_val};
ghost use Rattle.ess_core.specs.TreeViews.{pure_dom, pure_doms, pure_field_dom, pure_range, pure_attr, exs_of, field_values, words_of, within};
ghost use Rattle.ess_eval_domains.specs.ClosedViews.{pure_closed, pure_closeds, pure_field_closed, pure_attribute, pure_attributes, pure_span, domains_of, record_domain};
ghost use Rattle.ess_eval_operators.specs.declared.OperateNo.TheVariants.{Big};
ghost use Rattle.ess_eval.specs.Environments.{env_at};
ghost use Rattle.ess_eval.specs.Items.{Gathered};
ghost use Rattle.ess_eval.specs.ClosedDomains.{listed_domains, listed_fields};
ghost use Rattle.ess_semantics.specs.Trees.{record_dom, function_dom};
ghost use Rattle.ess_semantics.specs.Names.{keys};

use crate::building::{
    functions_of, integers_of, matrices_of, msets_of, named_of, partitions_of, records_of,
    relations_of, sets_of, tuples_of,
};
use crate::numbering::{attributes_at, spans_at};
use crate::risen::Risen;
use ess_core::{Attr, Binding, Boxed, Dom, FieldDom, Row, Val};
use ess_eval_domains::{Closed, FieldClosed, members};
use ess_eval_operators::OperateNo;
use std::alloc::Global;

/// The members of a domain, where each number in it has a meaning and they can be listed.
#[cycle(value)]
pub(crate) fn domain_members(
    alloc: Global,
    dom: &Dom,
    env: &Risen,
    bound: &mut Row<Binding>,
) -> Result<Option<Row<Val>>, OperateNo>
    ensures ok { IfOk result (λ o. option_map (map pure_val) o ≡ members_in (domain_meant (pure_dom dom.now) (env_at env.now bound.old))) }
    ensures kept { OnOk result (bound.new ≡ bound.old) }
    ensures big { result ≡ Err Big → is_large_dom (pure_dom dom.now) (env_at env.now bound.old) ≡ true }
{
    match closed_at(alloc, dom, env, bound)? {
        Some(domain) => Ok(members(alloc, domain.get())?),
        None => Ok(None),
    }
}

/// The domain that a domain expression denotes, where each bound and attribute value in it has a meaning.
#[cycle(value)]
#[tactic(auto, using(crate::proofs::DomainExcuses::large_in_domain_parts))]
pub(crate) fn closed_at(
    alloc: Global,
    dom: &Dom,
    env: &Risen,
    bound: &mut Row<Binding>,
) -> Result<Option<Boxed<Closed>>, OperateNo>
    ensures ok { IfOk result (λ o. option_map pure_closed o ≡ domain_meant (pure_dom dom.now) (env_at env.now bound.old)) }
    ensures kept { OnOk result (bound.new ≡ bound.old) }
    ensures big { result ≡ Err Big → is_large_dom (pure_dom dom.now) (env_at env.now bound.old) ≡ true }
{
    match dom {
        Dom::Bool => Ok(Some(Boxed::new(alloc, Closed::Bool)?)),
        Dom::Int(ranges) => Ok(integers_of(
            alloc,
            spans_at(alloc, ranges.as_slice(), env, bound)?,
        )?),
        Dom::Name(name) => Ok(named_of(alloc, name, env)?),
        Dom::Tuple(parts) => Ok(tuples_of(
            alloc,
            closeds_at(alloc, parts.as_slice(), env, bound)?,
        )?),
        Dom::Rec(fields) => Ok(records_of(
            alloc,
            fields_at(alloc, fields.as_slice(), env, bound)?,
        )?),
        Dom::Matrix(axes, item) => {
            let axes = closeds_at(alloc, axes.as_slice(), env, bound)?;
            let item = closed_at(alloc, item.get(), env, bound)?;
            Ok(matrices_of(alloc, axes, item)?)
        }
        Dom::Set(attrs, member) => {
            let own = attributes_at(alloc, attrs.as_slice(), env, bound)?;
            let member = closed_at(alloc, member.get(), env, bound)?;
            Ok(sets_of(alloc, own, member)?)
        }
        Dom::MSet(attrs, member) => {
            let own = attributes_at(alloc, attrs.as_slice(), env, bound)?;
            let member = closed_at(alloc, member.get(), env, bound)?;
            Ok(msets_of(alloc, own, member)?)
        }
        Dom::Function(attrs, from, to) => functions_at(
            alloc,
            attrs.as_slice(),
            from.get(),
            to.get(),
            env,
            bound,
        ),
        Dom::Relation(attrs, parts) => {
            let own = attributes_at(alloc, attrs.as_slice(), env, bound)?;
            let parts = closeds_at(alloc, parts.as_slice(), env, bound)?;
            Ok(relations_of(alloc, own, parts)?)
        }
        Dom::Partition(attrs, member) => {
            let own = attributes_at(alloc, attrs.as_slice(), env, bound)?;
            let member = closed_at(alloc, member.get(), env, bound)?;
            Ok(partitions_of(alloc, own, member)?)
        }
    }
}

/// A domain of functions.
#[cycle(value)]
#[tactic(auto, using(crate::proofs::DomainExcuses::large_own, crate::proofs::DomainExcuses::large_first_part, crate::proofs::DomainExcuses::large_second_part, crate::proofs::Closings::functions_there))]
fn functions_at(
    alloc: Global,
    attrs: &[Attr],
    from: &Dom,
    to: &Dom,
    env: &Risen,
    bound: &mut Row<Binding>,
) -> Result<Option<Boxed<Closed>>, OperateNo>
    ensures ok { IfOk result (λ o. option_map pure_closed o ≡ domain_meant (function_dom (words_of (map pure_attr attrs.now)) (exs_of (within (map pure_attr attrs.now))) (pure_dom from.now) (pure_dom to.now)) (env_at env.now bound.old)) }
    ensures kept { OnOk result (bound.new ≡ bound.old) }
    ensures big { result ≡ Err Big → is_large_dom (function_dom (words_of (map pure_attr attrs.now)) (exs_of (within (map pure_attr attrs.now))) (pure_dom from.now) (pure_dom to.now)) (env_at env.now bound.old) ≡ true }
{
    let own = attributes_at(alloc, attrs, env, bound)?;
    let from = closed_at(alloc, from, env, bound)?;
    let to = closed_at(alloc, to, env, bound)?;
    Ok(functions_of(alloc, own, from, to)?)
}

/// The domains of several domain expressions, where each has one.
#[cycle(value)]
#[tactic(auto, using(crate::proofs::Closings::closeds_there, crate::proofs::Closings::closeds_missing))]
fn closeds_at(
    alloc: Global,
    doms: &[Dom],
    env: &Risen,
    bound: &mut Row<Binding>,
) -> Result<Option<Row<Closed>>, OperateNo>
    ensures ok { IfOk result (λ o. option_map pure_closeds o ≡ domains_meant (pure_doms doms.now) (env_at env.now bound.old)) }
    ensures kept { OnOk result (bound.new ≡ bound.old) }
    ensures big { result ≡ Err Big → any_large_dom (pure_doms doms.now) (env_at env.now bound.old) ≡ true }
{
    let mut parts = Row::new(alloc);
    if add_closeds(alloc, doms, env, bound, &mut parts)? {
        Ok(Some(parts))
    } else {
        Ok(None)
    }
}

/// Puts the domains behind others. False where one has a bound without a meaning.
#[cycle(value)]
#[tactic(auto, using(crate::proofs::Gathering::gathered_on, crate::proofs::DomainExcuses::large_first_dom, crate::proofs::DomainExcuses::large_later_dom))]
fn add_closeds(
    alloc: Global,
    doms: &[Dom],
    env: &Risen,
    bound: &mut Row<Binding>,
    parts: &mut Row<Closed>,
) -> Result<bool, OperateNo>
    ensures ok { IfOk result (λ b. Gathered b (map pure_closed parts.old) (map pure_closed parts.new) (listed_domains (map pure_dom doms.now) (env_at env.now bound.old))) }
    ensures kept { OnOk result (bound.new ≡ bound.old) }
    ensures big { result ≡ Err Big → any_large_dom (pure_doms doms.now) (env_at env.now bound.old) ≡ true }
{
    match doms.split_first() {
        None => Ok(true),
        Some((dom, rest)) => match closed_at(alloc, dom, env, bound)? {
            Some(domain) => {
                parts.push(domain.into_inner())?;
                add_closeds(alloc, rest, env, bound, parts)
            }
            None => Ok(false),
        },
    }
}

/// The fields of a record with their domains, where each has one.
#[cycle(value)]
#[tactic(auto, using(crate::proofs::Closings::fields_there, crate::proofs::Closings::fields_missing))]
fn fields_at(
    alloc: Global,
    fields: &[FieldDom],
    env: &Risen,
    bound: &mut Row<Binding>,
) -> Result<Option<Row<FieldClosed>>, OperateNo>
    ensures ok { IfOk result (λ o. option_map (λ fs. record_domain (map pure_field_closed fs)) o ≡ domain_meant (record_dom (keys (map pure_field_dom fields.now)) (doms_of (field_values (map pure_field_dom fields.now)))) (env_at env.now bound.old)) }
    ensures kept { OnOk result (bound.new ≡ bound.old) }
    ensures big { result ≡ Err Big → any_large_dom (doms_of (field_values (map pure_field_dom fields.now))) (env_at env.now bound.old) ≡ true }
{
    let mut parts = Row::new(alloc);
    if add_fields(alloc, fields, env, bound, &mut parts)? {
        Ok(Some(parts))
    } else {
        Ok(None)
    }
}

/// Puts the fields with their domains behind others. False where a domain has a bound without a meaning.
#[cycle(value)]
#[tactic(auto, using(crate::proofs::Gathering::gathered_on, crate::proofs::DomainExcuses::large_first_dom, crate::proofs::DomainExcuses::large_later_dom))]
fn add_fields(
    alloc: Global,
    fields: &[FieldDom],
    env: &Risen,
    bound: &mut Row<Binding>,
    parts: &mut Row<FieldClosed>,
) -> Result<bool, OperateNo>
    ensures ok { IfOk result (λ b. Gathered b (map pure_field_closed parts.old) (map pure_field_closed parts.new) (listed_fields (map pure_field_dom fields.now) (env_at env.now bound.old))) }
    ensures kept { OnOk result (bound.new ≡ bound.old) }
    ensures big { result ≡ Err Big → any_large_dom (doms_of (field_values (map pure_field_dom fields.now))) (env_at env.now bound.old) ≡ true }
{
    match fields.split_first() {
        None => Ok(true),
        Some((field, rest)) => match closed_at(alloc, &field.dom, env, bound)? {
            Some(domain) => {
                let name = field.name.copy(alloc)?;
                parts.push(FieldClosed {
                    name,
                    domain: domain.into_inner(),
                })?;
                add_fields(alloc, rest, env, bound, parts)
            }
            None => Ok(false),
        },
    }
}
