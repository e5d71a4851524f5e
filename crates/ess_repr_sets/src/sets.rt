ghost use Rattle.std.specs.Prelude.{◌≡◌, [], ◌∷◌, map, option_map, IfOk};
ghost use Rattle.ess_semantics.specs.Values.{a_set, node, of_list, items_of as the_items};
ghost use Rattle.ess_semantics.specs.Collections.{holds as is_held};
ghost use Rattle.ess_semantics.specs.Domains.{member_list as list_of_members};
ghost use Rattle.ess_semantics.specs.Tables.{truth_number, row_of};
ghost use Rattle.ess_semantics.specs.Layers.{codes_of};
ghost use Rattle.ess_core.specs.ValueViews.{pure_val};
ghost use Rattle.ess_core.specs.TableViews.{pure_table};
ghost use Rattle.ess_eval_domains.specs.ClosedViews.{pure_closed};
ghost use Rattle.ess_repr_rows_laws.specs.RowLayers.{picked as picked_of};

use crate::atoms::codes;
use crate::members::{occurrences, picked};
use ess_core::{NoMemory, Row, Table, Val};
use ess_eval_domains::{Closed, members};
use ess_eval_operators::items_of;
use ess_repr_slots::one_row;
use std::alloc::Global;

/// The table of a set by the members that occur, over the members of its inner domain. `NoMemory` where there is no room for it.
pub fn occurrence_tables(alloc: Global, member: &Closed, val: &Val) -> Result<Row<Table>, NoMemory>
    ensures { IfOk result (λ ts. map pure_table ts ≡ row_of (codes_of (pure_closed member.now)) (map (λ x. truth_number (is_held (the_items (pure_val val.now)) x)) (list_of_members (pure_closed member.now))) ∷ []) }
{
    let members = member_list(alloc, member)?;
    let items = items_of(alloc, val)?;
    let axis = codes(alloc, members.as_slice())?;
    let bits = occurrences(alloc, members.as_slice(), items.as_slice())?;
    let mut tables = Row::with_capacity(alloc, 1)?;
    tables.push(one_row(alloc, axis, bits)?)?;
    Ok(tables)
}

/// The set of the members whose item is true; nothing where an item is no truth value. `NoMemory` where there is no room for it.
#[tactic(auto, using(ess_core::proofs::ValueEquations::pure_set))]
pub fn occurrence_set(
    alloc: Global,
    member: &Closed,
    items: &[i64],
) -> Result<Option<Val>, NoMemory>
    ensures { IfOk result (λ o. option_map pure_val o ≡ option_map (λ xs. node a_set (of_list xs)) (picked_of items.now (list_of_members (pure_closed member.now)))) }
{
    let members = member_list(alloc, member)?;
    match picked(alloc, items, members.as_slice())? {
        Some(chosen) => Ok(Some(Val::Set(chosen))),
        None => Ok(None),
    }
}

/// The members of a domain that is an atom, or a tuple or record of enumerable domains; none of any other one. `NoMemory` where
/// there is no room for them.
#[tactic(auto, using(crate::proofs::ListedMembers::list_there, crate::proofs::ListedMembers::list_none))]
pub fn member_list(alloc: Global, domain: &Closed) -> Result<Row<Val>, NoMemory>
    ensures { IfOk result (λ r. map pure_val r ≡ list_of_members (pure_closed domain.now)) }
{
    match members(alloc, domain)? {
        Some(list) => Ok(list),
        None => Ok(Row::new(alloc)),
    }
}
