//! What is found of a domain in one pass over it.
ghost use Rattle.std.specs.Prelude.{◌≡◌, map, IfOk, OnOk};
ghost use Rattle.ess_semantics.specs.Kinds.{doms_of};
ghost use Rattle.ess_core.specs.TreeViews.{pure_dom, pure_doms, pure_field_dom, field_values};
ghost use Rattle.ess_types_judging_laws.specs.Judged.{judged_all, judged_dom, judged_doms};
ghost use Rattle.ess_types_judging_laws.specs.Accumulated.{numbers};
ghost use Rattle.ess_types_judging.specs.Findings.{pure_found};
ghost use Rattle.ess_types_judging.specs.Forms.{numbers_of, parts_found};
ghost use Rattle.ess_types_judging.specs.Judging.{pure_numbers};
ghost use Rattle.ess_types_judging.specs.ScopeViews.{pure_scope};

use crate::found::{Found, all_well, both};
use crate::gathered::{Numbers, no_number};
use crate::layers::layer_of;
use crate::numbers::{judge_attrs, judge_ranges};
use crate::scope::Scope;
use ess_core::{Dom, FieldDom, NoMemory};
use std::alloc::Global;

/// What is found of a domain. The scope is as it was. `NoMemory` where there is no room for types; the scope may then hold
/// further bound names.
#[cycle(judge)]
pub fn judge_dom(alloc: Global, dom: &Dom, scope: &mut Scope) -> Result<Found, NoMemory>
    ensures ok { IfOk result (λ f. pure_found f ≡ judged_dom (pure_dom dom.now) (pure_scope scope.old)) }
    ensures kept { OnOk result (scope.new ≡ scope.old) }
{
    let numbers = judge_numbers(alloc, dom, scope)?;
    let layer = layer_of(alloc, dom, numbers, scope)?;
    let parts = judge_parts(alloc, dom, scope)?;
    Ok(both(layer, parts))
}

/// The numbers that stand in a domain's own layer: bounds of ranges, and those of attributes.
#[cycle(judge)]
fn judge_numbers(alloc: Global, dom: &Dom, scope: &mut Scope) -> Result<Numbers, NoMemory>
    ensures ok { IfOk result (λ n. pure_numbers n ≡ numbers (judged_all (numbers_of (pure_dom dom.now)) (pure_scope scope.old))) }
    ensures kept { OnOk result (scope.new ≡ scope.old) }
{
    match dom {
        Dom::Int(ranges) => judge_ranges(alloc, ranges.as_slice(), scope),
        Dom::Set(attrs, _) => judge_attrs(alloc, attrs.as_slice(), scope),
        Dom::MSet(attrs, _) => judge_attrs(alloc, attrs.as_slice(), scope),
        Dom::Function(attrs, _, _) => judge_attrs(alloc, attrs.as_slice(), scope),
        Dom::Relation(attrs, _) => judge_attrs(alloc, attrs.as_slice(), scope),
        Dom::Partition(attrs, _) => judge_attrs(alloc, attrs.as_slice(), scope),
        _ => Ok(no_number()),
    }
}

/// The domains that stand in a domain.
#[cycle(judge)]
fn judge_parts(alloc: Global, dom: &Dom, scope: &mut Scope) -> Result<Found, NoMemory>
    ensures ok { IfOk result (λ f. pure_found f ≡ parts_found (pure_dom dom.now) (pure_scope scope.old)) }
    ensures kept { OnOk result (scope.new ≡ scope.old) }
{
    match dom {
        Dom::Tuple(doms) => judge_doms(alloc, doms.as_slice(), scope),
        Dom::Rec(fields) => judge_fields(alloc, fields.as_slice(), scope),
        Dom::Matrix(axes, item) => {
            let axes = judge_doms(alloc, axes.as_slice(), scope)?;
            let item = judge_dom(alloc, item.get(), scope)?;
            Ok(both(axes, item))
        }
        Dom::Set(_, member) => judge_dom(alloc, member.get(), scope),
        Dom::MSet(_, member) => judge_dom(alloc, member.get(), scope),
        Dom::Function(_, from, to) => {
            let from = judge_dom(alloc, from.get(), scope)?;
            let to = judge_dom(alloc, to.get(), scope)?;
            Ok(both(from, to))
        }
        Dom::Relation(_, doms) => judge_doms(alloc, doms.as_slice(), scope),
        Dom::Partition(_, member) => judge_dom(alloc, member.get(), scope),
        _ => Ok(all_well()),
    }
}

/// Several domains.
#[cycle(judge)]
fn judge_doms(alloc: Global, doms: &[Dom], scope: &mut Scope) -> Result<Found, NoMemory>
    ensures ok { IfOk result (λ f. pure_found f ≡ judged_doms (pure_doms doms.now) (pure_scope scope.old)) }
    ensures kept { OnOk result (scope.new ≡ scope.old) }
{
    let mut found = all_well();
    for (i, dom) in doms.iter().enumerate() {
        let own = judge_dom(alloc, dom, scope)?;
        found = both(found, own);
    }
    Ok(found)
}

/// The domains of fields.
#[cycle(judge)]
fn judge_fields(alloc: Global, fields: &[FieldDom], scope: &mut Scope) -> Result<Found, NoMemory>
    ensures ok { IfOk result (λ f. pure_found f ≡ judged_doms (doms_of (field_values (map pure_field_dom fields.now))) (pure_scope scope.old)) }
    ensures kept { OnOk result (scope.new ≡ scope.old) }
{
    let mut found = all_well();
    for (i, field) in fields.iter().enumerate() {
        let own = judge_dom(alloc, &field.dom, scope)?;
        found = both(found, own);
    }
    Ok(found)
}
