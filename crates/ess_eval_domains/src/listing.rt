ghost use Rattle.std.specs.Prelude.{◌≡◌, [], ◌∷◌, map, option_map, true, false, IfOk};
ghost use Rattle.ess_semantics.specs.Lists.{all_some};
ghost use Rattle.ess_semantics.specs.Values.{truth};
ghost use Rattle.ess_semantics.specs.Domains.{members as members_of, members_of_each as members_of_all, items_from};
ghost use Rattle.ess_core.specs.ValueViews.{pure_val};
ghost use Rattle.ess_eval_domains.specs.ClosedViews.{pure_closed, pure_closeds, pure_field_closed, domains_of};

use crate::closed::{Closed, FieldClosed};
use crate::numbers::integer_members;
use crate::products::lists_of;
use crate::tuples::{all_records, tuples};
use ess_core::{NoMemory, Row, Text, Val};
use std::alloc::Global;

/// The members of a domain that is an atom, or a tuple or record of enumerable domains, rising; nothing for any other one.
/// `NoMemory` where there is no room for them.
#[cycle(members)]
#[tactic(auto, using(crate::proofs::Listed::tuple_members, crate::proofs::Listed::tuple_none, crate::proofs::Listed::record_members, crate::proofs::Listed::record_none))]
pub fn members(alloc: Global, domain: &Closed) -> Result<Option<Row<Val>>, NoMemory>
    ensures { IfOk result (λ o. option_map (map pure_val) o ≡ members_of (pure_closed domain.now)) }
{
    match domain {
        Closed::Bool => Ok(Some(truths(alloc)?)),
        Closed::Int(spans) => integer_members(alloc, spans.as_slice()),
        Closed::Named(name, count) => Ok(Some(items(alloc, name, *count)?)),
        Closed::Tuple(parts) => match members_of_each(alloc, parts.as_slice())? {
            Some(choices) => {
                let lists = lists_of(alloc, choices.as_slice())?;
                Ok(Some(tuples(alloc, lists)?))
            }
            None => Ok(None),
        },
        Closed::Rec(fields) => match members_of_fields(alloc, fields.as_slice())? {
            Some(choices) => {
                Ok(Some(all_records(alloc, fields.as_slice(), choices.as_slice())?))
            }
            None => Ok(None),
        },
        _ => Ok(None),
    }
}

/// The members of each domain, where each is enumerable. `NoMemory` where there is no room for them.
#[cycle(members)]
#[tactic(auto, using(crate::proofs::Listed::each_more, crate::proofs::Listed::each_none, crate::proofs::Listed::each_end))]
fn members_of_each(alloc: Global, domains: &[Closed]) -> Result<Option<Row<Row<Val>>>, NoMemory>
    ensures { IfOk result (λ o. option_map (map (map pure_val)) o ≡ all_some (members_of_all (pure_closeds domains.now))) }
{
    let mut each = Row::with_capacity(alloc, domains.len())?;
    for domain in domains {
        match members(alloc, domain)? {
            Some(own) => each.push(own)?,
            None => return Ok(None),
        }
    }
    Ok(Some(each))
}

/// The members of the domain of each field, where each is enumerable. `NoMemory` where there is no room for them.
#[cycle(members)]
#[tactic(auto, using(crate::proofs::Listed::fields_more, crate::proofs::Listed::fields_none, crate::proofs::Listed::fields_end))]
fn members_of_fields(
    alloc: Global,
    fields: &[FieldClosed],
) -> Result<Option<Row<Row<Val>>>, NoMemory>
    ensures { IfOk result (λ o. option_map (map (map pure_val)) o ≡ all_some (members_of_all (domains_of (map (λ f. f.1) (map pure_field_closed fields.now))))) }
{
    let mut each = Row::with_capacity(alloc, fields.len())?;
    for field in fields {
        match members(alloc, &field.domain)? {
            Some(own) => each.push(own)?,
            None => return Ok(None),
        }
    }
    Ok(Some(each))
}

/// Both truth values. `NoMemory` where there is no room for them.
fn truths(alloc: Global) -> Result<Row<Val>, NoMemory>
    ensures { IfOk result (λ r. map pure_val r ≡ truth false ∷ truth true ∷ []) }
{
    let mut row = Row::with_capacity(alloc, 2)?;
    row.push(Val::Truth(false))?;
    row.push(Val::Truth(true))?;
    Ok(row)
}

/// The values of a named type. `NoMemory` where there is no room for them.
#[tactic(auto, using(crate::proofs::Listed::items_more))]
fn items(alloc: Global, name: &Text, count: u64) -> Result<Row<Val>, NoMemory>
    ensures { IfOk result (λ r. map pure_val r ≡ items_from name.now 1 count) }
{
    let mut row = Row::new(alloc);
    for k in 0..count {
        let name = name.copy(alloc)?;
        row.push(Val::Item(name, k + 1))?;
    }
    Ok(row)
}
