ghost use Rattle.std.specs.Prelude.{◌≡◌, [], ◌∷◌, map, option_map, IfOk};
ghost use Rattle.ess_semantics.specs.Values.{a_relation, node, of_list, items_of as the_items};
ghost use Rattle.ess_semantics.specs.Collections.{holds as is_held};
ghost use Rattle.ess_semantics.specs.Domains.{tuples as tuples_of, domain_list, member_list as list_of_members};
ghost use Rattle.ess_semantics.specs.Tables.{truth_number};
ghost use Rattle.ess_semantics.specs.Layers.{codes_of};
ghost use Rattle.ess_core.specs.ValueViews.{pure_val};
ghost use Rattle.ess_core.specs.TableViews.{pure_table};
ghost use Rattle.ess_eval_domains.specs.ClosedViews.{pure_closeds};
ghost use Rattle.ess_repr_rows_laws.specs.RowLayers.{picked as picked_of};

use ess_core::{NoMemory, Row, Table, Val};
use ess_eval_domains::Closed;
use ess_eval_operators::items_of;
use ess_repr_closed::{axes_of_each, copy};
use ess_repr_sets::{member_list, occurrences, picked};
use std::alloc::Global;

/// The table of a relation by the tuples that occur, over the members of each component. `NoMemory` where there is no room for it.
pub fn matrix_tables(
    alloc: Global,
    components: &[Closed],
    val: &Val,
) -> Result<Row<Table>, NoMemory>
    ensures { IfOk result (λ ts. map pure_table ts ≡ record {
      axes = map codes_of (domain_list (pure_closeds components.now));
      items = map (λ x. truth_number (is_held (the_items (pure_val val.now)) x)) (list_of_members (tuples_of
          (pure_closeds components.now)));
    } ∷ []) }
{
    let members = tuple_members(alloc, components)?;
    let items = items_of(alloc, val)?;
    let bits = occurrences(alloc, members.as_slice(), items.as_slice())?;
    let axes = axes_of_each(alloc, components)?;
    let mut tables = Row::with_capacity(alloc, 1)?;
    tables.push(Table { axes, items: bits })?;
    Ok(tables)
}

/// The relation of the tuples whose item is true; nothing where an item is no truth value. `NoMemory` where there is no room for it.
#[tactic(auto, using(ess_core::proofs::ValueEquations::pure_relation))]
pub fn matrix_relation(
    alloc: Global,
    components: &[Closed],
    items: &[i64],
) -> Result<Option<Val>, NoMemory>
    ensures { IfOk result (λ o. option_map pure_val o ≡
        option_map (λ xs. node a_relation (of_list xs)) (picked_of items.now (list_of_members (tuples_of (pure_closeds components.now))))) }
{
    let members = tuple_members(alloc, components)?;
    match picked(alloc, items, members.as_slice())? {
        Some(chosen) => Ok(Some(Val::Relation(chosen))),
        None => Ok(None),
    }
}

/// The tuples of members of these domains, where all are enumerable; none else. `NoMemory` where there is no room for them.
#[tactic(auto, using(ess_eval_domains::proofs::ClosedEquations::pure_closed_tuple))]
pub fn tuple_members(alloc: Global, components: &[Closed]) -> Result<Row<Val>, NoMemory>
    ensures { IfOk result (λ r. map pure_val r ≡ list_of_members (tuples_of (pure_closeds components.now))) }
{
    let tuple = Closed::Tuple(copies(alloc, components)?);
    let members = member_list(alloc, &tuple);
    drop(tuple);
    members
}

/// Copies of domains. `NoMemory` where there is no room for them.
fn copies(alloc: Global, domains: &[Closed]) -> Result<Row<Closed>, NoMemory>
    ensures { IfOk result (λ r. r ≡ domains.now) }
{
    let mut copies = Row::with_capacity(alloc, domains.len())?;
    for domain in domains {
        match copy(alloc, domain) {
            Ok(copy) => copies.push(copy)?,
            Err(no) => return Err(no),
        }
    }
    Ok(copies)
}
