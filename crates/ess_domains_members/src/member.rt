ghost use Rattle.std.specs.Prelude.{◌≡◌, map, IfOk};
ghost use Rattle.std.specs.List.{list_all};
ghost use Rattle.ess_semantics.specs.Values.{from_of, to_of, of_list};
ghost use Rattle.ess_semantics.specs.Membership.{member as member_of, member_of_each, tuple_member as member_tuple};
ghost use Rattle.ess_core.specs.ValueViews.{pure_val, pure_vals, pure_field_val, pure_pair};
ghost use Rattle.ess_eval_domains.specs.ClosedViews.{pure_closed, pure_closeds, pure_field_closed, domains_of};

use crate::atoms::{in_spans, is_item};
use crate::fields::same_fields;
use crate::forms::{have_function_form, have_mset_form, have_relation_form, have_set_form};
use crate::matrices::leaves;
use crate::parts::part_members;
use ess_core::{FieldVal, NoMemory, Pair, Val};
use ess_eval_domains::{Closed, FieldClosed};
use std::alloc::Global;

/// Whether a value is a member of a domain; a member has the canonical form of its kind. `NoMemory` where there is no room for
/// the members of a domain that an attribute, an index or a partition speaks of.
#[cycle(member)]
#[tactic(auto, using(crate::proofs::MemberForms::kinds))]
pub fn is_member(alloc: Global, domain: &Closed, val: &Val) -> Result<bool, NoMemory>
    ensures { IfOk result (λ b. b ≡ member_of (pure_closed domain.now) (pure_val val.now)) }
{
    match (domain, val) {
        (Closed::Bool, Val::Truth(_)) => Ok(true),
        (Closed::Int(spans), Val::Num(number)) => Ok(in_spans(spans.as_slice(), *number)),
        (Closed::Named(name, count), Val::Item(own, position)) => {
            Ok(is_item(name, *count, own, *position))
        }
        (Closed::Tuple(parts), Val::Tuple(vals)) => {
            Ok(each_member(alloc, parts.as_slice(), vals.as_slice())?)
        }
        (Closed::Rec(fields), Val::Rec(vals)) => {
            if !same_fields(fields.as_slice(), vals.as_slice()) {
                return Ok(false);
            }
            Ok(each_field_member(alloc, fields.as_slice(), vals.as_slice())?)
        }
        (Closed::Matrix(axes, item), _) => match leaves(alloc, axes.as_slice(), val)? {
            Some(all) => Ok(are_members(alloc, item.get(), all.as_slice())?),
            None => Ok(false),
        },
        (Closed::Set(own, inner), Val::Set(vals)) => {
            if !have_set_form(own.as_slice(), vals.as_slice()) {
                return Ok(false);
            }
            Ok(are_members(alloc, inner.get(), vals.as_slice())?)
        }
        (Closed::MSet(own, inner), Val::MSet(vals)) => {
            if !have_mset_form(own.as_slice(), vals.as_slice()) {
                return Ok(false);
            }
            Ok(are_members(alloc, inner.get(), vals.as_slice())?)
        }
        (Closed::Function(own, from, to), Val::Function(pairs)) => {
            let pairs = pairs.as_slice();
            if !have_function_form(alloc, own.as_slice(), from.get(), to.get(), pairs)? {
                return Ok(false);
            }
            if !arguments_are_members(alloc, from.get(), pairs)? {
                return Ok(false);
            }
            Ok(values_are_members(alloc, to.get(), pairs)?)
        }
        (Closed::Relation(own, parts), Val::Relation(tuples)) => {
            if !have_relation_form(alloc, own.as_slice(), parts.as_slice(), tuples.as_slice())? {
                return Ok(false);
            }
            Ok(are_tuples(alloc, parts.as_slice(), tuples.as_slice())?)
        }
        (Closed::Partition(own, inner), Val::Partition(parts)) => {
            match part_members(alloc, own.as_slice(), inner.get(), parts.as_slice())? {
                Some(all) => Ok(are_members(alloc, inner.get(), all.as_slice())?),
                None => Ok(false),
            }
        }
        (_, _) => Ok(false),
    }
}

/// Whether each of these is a member of the domain.
#[cycle(member)]
fn are_members(alloc: Global, domain: &Closed, vals: &[Val]) -> Result<bool, NoMemory>
    ensures { IfOk result (λ b. b ≡ list_all (member_of (pure_closed domain.now)) (map pure_val vals.now)) }
{
    for val in vals {
        if !is_member(alloc, domain, val)? {
            return Ok(false);
        }
    }
    Ok(true)
}

/// Whether each component is a member of its domain, where there are as many.
#[cycle(member)]
#[tactic(auto, using(crate::proofs::MemberLoops::each_end))]
fn each_member(alloc: Global, parts: &[Closed], vals: &[Val]) -> Result<bool, NoMemory>
    ensures { IfOk result (λ b. b ≡ member_of_each (pure_closeds parts.now) (pure_vals vals.now)) }
{
    for (i, part) in parts.iter().enumerate() {
        if i >= vals.len() {
            return Ok(false);
        }
        if !is_member(alloc, part, &vals[i])? {
            return Ok(false);
        }
    }
    if parts.len() < vals.len() {
        return Ok(false);
    }
    Ok(true)
}

/// Whether the value of each field is a member of the field's domain, where there are as many.
#[cycle(member)]
#[tactic(auto, using(crate::proofs::MemberLoops::fields_end))]
fn each_field_member(
    alloc: Global,
    fields: &[FieldClosed],
    vals: &[FieldVal],
) -> Result<bool, NoMemory>
    ensures { IfOk result (λ b. b ≡ member_of_each (domains_of (map (λ f. f.1) (map pure_field_closed fields.now))) (of_list (map (λ f. f.1) (map pure_field_val vals.now)))) }
{
    for (i, field) in fields.iter().enumerate() {
        if i >= vals.len() {
            return Ok(false);
        }
        if !is_member(alloc, &field.domain, &vals[i].val)? {
            return Ok(false);
        }
    }
    if fields.len() < vals.len() {
        return Ok(false);
    }
    Ok(true)
}

/// Whether the argument of each pair is a member of the domain.
#[cycle(member)]
fn arguments_are_members(alloc: Global, domain: &Closed, pairs: &[Pair]) -> Result<bool, NoMemory>
    ensures { IfOk result (λ b. b ≡ list_all (λ p. member_of (pure_closed domain.now) (from_of p)) (map pure_pair pairs.now)) }
{
    for pair in pairs {
        if !is_member(alloc, domain, &pair.from)? {
            return Ok(false);
        }
    }
    Ok(true)
}

/// Whether the value of each pair is a member of the domain.
#[cycle(member)]
fn values_are_members(alloc: Global, domain: &Closed, pairs: &[Pair]) -> Result<bool, NoMemory>
    ensures { IfOk result (λ b. b ≡ list_all (λ p. member_of (pure_closed domain.now) (to_of p)) (map pure_pair pairs.now)) }
{
    for pair in pairs {
        if !is_member(alloc, domain, &pair.to)? {
            return Ok(false);
        }
    }
    Ok(true)
}

/// Whether each is a tuple of members of these domains.
#[cycle(member)]
fn are_tuples(alloc: Global, parts: &[Closed], tuples: &[Val]) -> Result<bool, NoMemory>
    ensures { IfOk result (λ b. b ≡ list_all (member_tuple (pure_closeds parts.now)) (map pure_val tuples.now)) }
{
    for tuple in tuples {
        if !tuple_member(alloc, parts, tuple)? {
            return Ok(false);
        }
    }
    Ok(true)
}

/// Whether a value is a tuple of members of these domains.
#[cycle(member)]
#[tactic(auto, using(crate::proofs::MemberForms::tuple_there, crate::proofs::MemberForms::tuple_other))]
fn tuple_member(alloc: Global, parts: &[Closed], tuple: &Val) -> Result<bool, NoMemory>
    ensures { IfOk result (λ b. b ≡ member_tuple (pure_closeds parts.now) (pure_val tuple.now)) }
{
    match tuple {
        Val::Num(_) => Ok(false),
        Val::Truth(_) => Ok(false),
        Val::Item(_, _) => Ok(false),
        Val::Tuple(vals) => Ok(each_member(alloc, parts, vals.as_slice())?),
        Val::Rec(_) => Ok(false),
        Val::Matrix(_, _) => Ok(false),
        Val::Set(_) => Ok(false),
        Val::MSet(_) => Ok(false),
        Val::Function(_) => Ok(false),
        Val::Relation(_) => Ok(false),
        Val::Partition(_) => Ok(false),
    }
}
