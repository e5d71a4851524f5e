//! What is asked of one layer of a domain.
ghost use Rattle.std.specs.Prelude.{◌≡◌, [], if◌then◌else◌, IfOk};
ghost use Rattle.ess_semantics.specs.Kinds.{dom_list};
ghost use Rattle.ess_semantics.specs.DomainJudgements.{size_keys, is_binary as is_binary_relation, marks_fit as are_marks_fit, ranges_fit as are_ranges_fit, ranges_of, fields_distinct};
ghost use Rattle.ess_semantics.specs.Judgements.{domain_is_known};
ghost use Rattle.ess_core.specs.TreeViews.{pure_dom, pure_doms};
ghost use Rattle.ess_types_judging_laws.specs.Accumulated.{layer_with};
ghost use Rattle.ess_types_judging.specs.Findings.{pure_found};
ghost use Rattle.ess_types_judging.specs.Judging.{pure_numbers};
ghost use Rattle.ess_types_judging.specs.ScopeViews.{pure_scope};
ghost use Rattle.ess_types_judging.specs.Holders.{numbered_keys, flag_keys};

use crate::attributes::{Holder, holder_fits};
use crate::fields::domain_fields_differ;
use crate::finiteness::{indices_are_atoms, listed_are_enumerable, ranges_fit};
use crate::found::{Found, all_well, at_place, both};
use crate::gathered::Numbers;
use crate::scope::{Scope, knows_domain};
use ess_core::{Dom, NoMemory};
use ess_types_operators::{agree, type_of_dom};
use std::alloc::Global;

/// Whether a name that stands as a domain is a type or a domain.
fn is_known(dom: &Dom, scope: &Scope) -> bool
    ensures { result ≡ domain_is_known (pure_dom dom.now) (pure_scope scope.now) }
{
    match dom {
        Dom::Name(name) => knows_domain(scope, name),
        _ => true,
    }
}

/// Whether an int domain without a bound has at most one range.
fn int_fits(dom: &Dom) -> bool
    ensures { result ≡ are_ranges_fit (ranges_of (pure_dom dom.now)) }
{
    match dom {
        Dom::Int(ranges) => ranges_fit(ranges.as_slice()),
        _ => true,
    }
}

/// Whether no field of a record's domain stands twice.
fn names_differ(dom: &Dom) -> bool
    ensures { result ≡ fields_distinct (pure_dom dom.now) }
{
    match dom {
        Dom::Rec(fields) => domain_fields_differ(fields.as_slice()),
        _ => true,
    }
}

/// Whether a relation has two components of one type. `NoMemory` where there is no room for the types.
#[tactic(auto, using(crate::proofs::LayerLemmas::binary_there, crate::proofs::LayerLemmas::binary_elsewhere))]
fn is_binary(alloc: Global, doms: &[Dom]) -> Result<bool, NoMemory>
    ensures { IfOk result (λ b. b ≡ is_binary_relation (dom_list (pure_doms doms.now))) }
{
    if doms.len() == 2 {
        let first = type_of_dom(alloc, &doms[0])?;
        let second = type_of_dom(alloc, &doms[1])?;
        Ok(agree(first.get(), second.get()))
    } else {
        Ok(false)
    }
}

/// The kind of a relation, as far as its attributes go.
fn holder_of(binary: bool) -> Holder
    ensures numbered { numbered_keys result ≡ size_keys }
    ensures flags { flag_keys result ≡ if binary then flag_keys Holder.BinaryRelation else [] }
{
    if binary {
        Holder::BinaryRelation
    } else {
        Holder::Relation
    }
}

/// Whether the attributes of a domain are those of its kind, and none stands twice.
fn marks_fit(alloc: Global, dom: &Dom) -> Result<bool, NoMemory>
    ensures { IfOk result (λ b. b ≡ are_marks_fit (pure_dom dom.now)) }
{
    match dom {
        Dom::Set(attrs, _) => Ok(holder_fits(Holder::Set, attrs.as_slice())),
        Dom::MSet(attrs, _) => Ok(holder_fits(Holder::MSet, attrs.as_slice())),
        Dom::Function(attrs, _, _) => Ok(holder_fits(Holder::Function, attrs.as_slice())),
        Dom::Relation(attrs, doms) => {
            let binary = is_binary(alloc, doms.as_slice())?;
            Ok(holder_fits(holder_of(binary), attrs.as_slice()))
        }
        Dom::Partition(attrs, _) => Ok(holder_fits(Holder::Partition, attrs.as_slice())),
        _ => Ok(true),
    }
}

/// One layer of a domain with its numbers. `NoMemory` where there is no room for types.
pub(crate) fn layer_of(
    alloc: Global,
    dom: &Dom,
    numbers: Numbers,
    scope: &Scope,
) -> Result<Found, NoMemory>
    ensures { IfOk result (λ f. pure_found f ≡ layer_with (pure_dom dom.now) (pure_numbers numbers) (pure_scope scope.now)) }
{
    let known = is_known(dom, scope);
    let marks = marks_fit(alloc, dom)?;
    let indices = indices_are_atoms(dom);
    let fields = names_differ(dom);
    let fits = (((numbers.ints & int_fits(dom)) & marks) & indices) & fields;
    let enumerable = listed_are_enumerable(dom) & numbers.found.fixed;
    let own = Found {
        known,
        fits,
        enumerable,
        ..all_well()
    };
    Ok(both(own, at_place(true, numbers.found)))
}
